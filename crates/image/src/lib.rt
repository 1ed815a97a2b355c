// The image of rows in image order: "First the number of nodes", then one pass over the rows. A node's record begins with its three numbers and
// goes on with its children's records, and these are the rows that follow.
// The length is a function of its own: a room that is too short is refused before its first byte is written.
#![tactic(auto)]

ghost use Rattle.std.specs.Prelude.{◌≡◌, ◌≤◌, length};
ghost use Rattle.meaning.specs.Limits.{most_nodes};
ghost use Rattle.groups.specs.Filled.{filled, Fits};
ghost use Rattle.image.specs.Listing.{head, listing_of};

use groups::Writer;
use rows::TreeRows;

// How many bytes the head of a record takes. Widened by `as`: what `From` gives is known by its contract alone, and each bound would have to cite it.
fn head_length(code: u32, mark: u8, kids: u16) -> usize
    ensures { (result ≡ length (head code mark kids)) × (result ≤ 15) }
{
    groups::number_length(code)
        + groups::number_length(mark as u32)
        + groups::number_length(kids as u32)
}

// The head of a record, written behind what the writer has.
fn put_head(w: &mut Writer<'_>, code: u32, mark: u8, kids: u16)
    requires { Fits w.old (head code mark kids) }
    ensures { w.new ≡ filled w.old (head code mark kids) }
{
    w.put_number(code);
    w.put_number(mark as u32);
    w.put_number(kids as u32);
}

// How many bytes the image of the rows has.
pub fn image_length(rows: &TreeRows) -> usize
    requires { rows.now.len ≤ most_nodes }
    ensures { result ≡ length (listing_of rows.now) }
{
    let mut bytes = groups::number_length(rows.len as u32);
    // One index into three tables: a zip would first cut each of them to `len`.
    for u in 0..rows.len {
        bytes += head_length(rows.code[u], rows.mark[u], rows.kids[u]);
    }
    bytes
}

// The image of the rows, written behind what the writer has; of no rows it is the one byte 0.
pub fn put_image(w: &mut Writer<'_>, rows: &TreeRows)
    requires { (rows.now.len ≤ most_nodes) × Fits w.old (listing_of rows.now) }
    ensures { w.new ≡ filled w.old (listing_of rows.now) }
{
    w.put_number(rows.len as u32);
    for u in 0..rows.len {
        put_head(w, rows.code[u], rows.mark[u], rows.kids[u]);
    }
}
