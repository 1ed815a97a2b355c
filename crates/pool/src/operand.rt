// Each sign makes one operand, the latest, of none, one or two: a new one, one with its marks moved, or two that are glued.
ghost use Rattle.std.specs.Prelude.{◌≡◌, List, ℕ, ◌+◌, ◌-◌, ◌%◌, ◌≤◌, ◌<◌, length, get_or, set};
ghost use Rattle.meaning.specs.Expression.{Expr};
ghost use Rattle.meaning.specs.Gluing.{plain};
ghost use Rattle.meaning.specs.Word.{operand, unary, binary, sign_of};
ghost use Rattle.word.specs.Sign.{number_of, Numbered};
ghost use Rattle.glue.specs.Rows.{pool_rows};
ghost use Rattle.glue.specs.Trees.{kept, rows_in, built_from};
ghost use Rattle.pool.specs.Pool.{held, OnlyRows, built, operand_at, InOrder, Trees, Passes};
ghost use Rattle.pool.specs.Latest.{topped, LatestIs, Makes, PutFits, with_latest};

use glue::trees::{Built, glue_two, kept};
use rows::{NO_ROW, link, set_link};
use word::sign::{Kind, Sign, kind_of};

// The latest operand once a sign is applied: its place among the pending operands, and what was built.
#[derive(Clone, Copy)]
pub struct Latest {
    pub at: usize,
    pub built: Option<Built>,
}

// The pool: rows in slices that the caller lends, where each operand's rows start, its marks, and how many operands are pending.
// An operand that ends where it starts has no rows and is empty: the tables are lent numbers, with no room for an Option (fixed memory).
#[derive(Drop)]
pub struct Pool<'a> {
    pub parent: &'a mut [u16],
    pub label: &'a mut [u32],
    pub first: &'a mut [u16],
    pub s: &'a mut [u16],
    pub d: &'a mut [u16],
    pub pending: usize,
}

// The label code of an operand sign's top: label L has the code L+1, the wildcard 0.
fn code_of(sign: Sign) -> u32
    requires { Numbered sign }
    ensures { result ≡ number_of sign - 8 }
{
    match sign {
        Sign::Label(label) => label + 1,
        _ => 0,
    }
}

// "self and a label give one node, child a top s with one child d; parent the same with s and d exchanged": the rows and marks of an operand sign.
// One comparison after the other and no `match`, for the reason that `kind_of` (word) gives.
fn shape(sign: Sign) -> Option<Built>
    ensures { (rows_in result ≤ 2) × ((e : Expr) → sign_of (number_of sign) ≡ operand e → topped (number_of sign - 8) result ≡ plain e) }
{
    if sign == Sign::Empty {
        return None;
    }
    if sign == Sign::Child {
        return Some(Built {
            rows: 2,
            s: 0,
            d: 1,
        });
    }
    if sign == Sign::Parent {
        return Some(Built {
            rows: 2,
            s: 1,
            d: 0,
        });
    }
    Some(Built {
        rows: 1,
        s: 0,
        d: 0,
    })
}

// "Projections move one mark to the other's node, inverse exchanges them."
fn turned(q: Option<Built>, sign: Sign) -> Option<Built>
    ensures { (f : Expr → Expr) (e : Expr) (a : ℕ) (P L : List ℕ) → sign_of (number_of sign) ≡ unary f → built_from a q P L ≡ plain e
        → built_from a result P L ≡ plain (f e) }
{
    let Built { rows, s, d } = q?;
    match sign {
        Sign::FirstProjection => Some(Built { rows, s, d: s }),
        Sign::SecondProjection => Some(Built { rows, s: d, d }),
        _ => Some(Built { rows, s: d, d: s }),
    }
}

impl<'a> Pool<'a> {
    // Operand k as it stands.
    pub fn operand(&self, k: usize) -> Option<Built>
        requires { let p = held self.now in
            (k + 1 < length p.first) × (k < length p.s) × (k < length p.d) × (get_or p.first k 0 ≤ get_or p.first (k + 1) 0) }
        ensures { result ≡ built (held self.now) k }
    {
        let rows = self.start(k + 1) - self.start(k);
        if rows == 0 {
            return None;
        }
        Some(Built {
            rows,
            s: link(self.s, k),
            d: link(self.d, k),
        })
    }

    // Where the rows of operand k start.
    fn start(&self, k: usize) -> usize
        requires { k < length self.now.first.now }
        ensures { (result ≡ get_or self.now.first.now k 0) × (result < 65536) }
    {
        link(self.first, k)
    }

    // A new operand: a top and a child of it are written, and the sign tells how many of the two it has.
    fn lay(&mut self, sign: Sign) -> Latest
        requires number { Numbered sign }
        requires room { let p = held self.old in let n = self.old.pending in
            (n < length p.first) × (get_or p.first n 0 + 1 < pool_rows) × (pool_rows ≤ length p.parent) × (pool_rows ≤ length p.label) }
        ensures rows { OnlyRows self.old self.new }
        ensures latest { (e : Expr) → sign_of (number_of sign) ≡ operand e → LatestIs self.old self.old.pending result self.new (plain e) }
    {
        let k = self.pending;
        let u = self.start(k);
        let v = u + 1;
        self.parent[u] = NO_ROW;
        self.parent[v] = 0;
        self.label[u] = code_of(sign);
        self.label[v] = 0;
        Latest {
            at: k,
            built: shape(sign),
        }
    }

    // The latest operand with its marks moved.
    fn turn(&self, sign: Sign) -> Latest
        requires { let p = held self.now in let n = self.now.pending in
            (1 ≤ n) × (n < length p.first) × (n ≤ length p.s) × (n ≤ length p.d) × (get_or p.first (n - 1) 0 ≤ get_or p.first n 0) }
        ensures { (f : Expr → Expr) (e : Expr) → sign_of (number_of sign) ≡ unary f → operand_at (held self.now) (self.now.pending - 1) ≡ plain e
            → LatestIs self.now (self.now.pending - 1) result self.now (plain (f e)) }
    {
        let k = self.pending - 1;
        Latest {
            at: k,
            built: turned(self.operand(k), sign),
        }
    }

    // "Signs 4 and 7 take the two latest operands, the earlier as first": their rows are used again for what comes of them.
    fn glue_latest(&mut self, sign: Sign) -> Latest
        requires { let p = held self.old in let n = self.old.pending in (2 ≤ n) × (InOrder p n × Trees p n) }
        ensures rows { OnlyRows self.old self.new }
        ensures latest { let p = held self.old in let n = self.old.pending in
            (f : Expr → Expr → Expr) (e g : Expr) → sign_of (number_of sign) ≡ binary f → operand_at p (n - 2) ≡ plain e → operand_at p (n - 1) ≡ plain g
            → LatestIs self.old (n - 2) result self.new (plain (f e g)) }
    {
        let k = self.pending - 2;
        let a = self.start(k);
        let p = self.operand(k);
        let q = self.operand(k + 1);
        let built = glue_two(
            &mut self.parent[a..],
            &mut self.label[a..],
            p,
            q,
            sign == Sign::Intersection,
        );
        Latest { at: k, built }
    }

    // What a sign that the check of the word lets pass makes of the latest operands, in the rows.
    pub fn make(&mut self, number: u32) -> Latest
        requires { Passes (held self.old) self.old.pending number }
        ensures rows { OnlyRows self.old self.new }
        ensures latest { Makes (held self.old) self.old.pending number result self.new.parent.now self.new.label.now }
    {
        let sign = Sign::from(number);
        match kind_of(number) {
            Kind::Unary => self.turn(sign),
            Kind::Binary => self.glue_latest(sign),
            _ => self.lay(sign),
        }
    }

    // Operand l.at is l, and it is the latest. Where there are no rows, its marks do not matter.
    pub fn put_latest(&mut self, l: Latest)
        requires { PutFits l self.old.first.now self.old.s.now self.old.d.now }
        ensures { self.new ≡ with_latest self.old l }
    {
        let k = l.at;
        let b = kept(l.built);
        let end = self.start(k) + b.rows;
        set_link(self.first, k + 1, end);
        // a mark is below 512 wherever it is read: the remainder spares a clause that says so
        self.s[k] = (b.s % 65536) as u16;
        self.d[k] = (b.d % 65536) as u16;
        self.pending = k + 1;
    }
}
