// The calls for C, declared in include/pathplus.h: an export for each, with the clauses of the library's own call.
#![tactic(auto)]

ghost use Rattle.meaning.specs.Image.{plain_image, minimal_image};
ghost use Rattle.meaning.specs.Normal.{normal_form};
ghost use Rattle.pathplus.specs.Answer.{question, WritesC, SelectedC};

#[unsafe(no_mangle)]
pub extern "C" fn pathplus_plain_image(word: &[u8], room: &mut [u8]) -> u64
    ensures { WritesC plain_image word.now room.old result room.new }
{
    pathplus::pathplus_plain_image(word, room)
}

#[unsafe(no_mangle)]
pub extern "C" fn pathplus_minimal_image(word: &[u8], room: &mut [u8]) -> u64
    ensures { WritesC minimal_image word.now room.old result room.new }
{
    pathplus::pathplus_minimal_image(word, room)
}

#[unsafe(no_mangle)]
pub extern "C" fn pathplus_normal_form(word: &[u8], room: &mut [u8]) -> u64
    ensures { WritesC normal_form word.now room.old result room.new }
{
    pathplus::pathplus_normal_form(word, room)
}

#[unsafe(no_mangle)]
pub extern "C" fn pathplus_selects(
    word: &[u8],
    parents: &[u32],
    labels: &[u32],
    m: u64,
    n: u64,
    workspace: &mut [u8],
) -> u64
    ensures { SelectedC (question word.now parents.now labels.now m n workspace.old)
        result workspace.new }
{
    pathplus::pathplus_selects(word, parents, labels, m, n, workspace)
}
