// The rows that the ways of a normal form join: s, d, and "the lowest node above or at both", t.
ghost use Rattle.std.specs.Prelude.{◌<◌};
ghost use Rattle.rows.specs.Rows.{FirstRow};
ghost use Rattle.ways.specs.Ways.{Lowest};
ghost use Rattle.normal.specs.Forms.{IsQuery};

use rows::TreeRows;

#[derive(Clone, Copy)]
pub struct Ends {
    pub s: usize,
    pub d: usize,
    pub t: usize,
}

impl Ends {
    #[tactic(auto, using(crate::proofs::Marks::borne_src, crate::proofs::Marks::borne_dst, crate::proofs::Marks::pair_rows))]
    pub fn of(rows: &TreeRows) -> Self
        requires { IsQuery rows.now × (0 < rows.now.len) }
        ensures source { FirstRow rows.now.mark 0 result.s }
        ensures destination { FirstRow rows.now.mark 1 result.d }
        ensures lowest { Lowest rows.now.span result.s result.d result.t }
    {
        let s = rows::row_of(&rows.mark, rows::S);
        let d = rows::row_of(&rows.mark, rows::D);
        let t = ways::lowest(rows, s, d);
        Ends { s, d, t }
    }
}
