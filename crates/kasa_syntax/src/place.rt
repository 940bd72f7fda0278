// Lines and columns.
ghost use Rattle.std.specs.Prelude.{◌≡◌, ◌≤◌, length};
ghost use Rattle.kasa_syntax.specs.Place.{place_at};

use kasa_num::Place;

/// The line and the column of an offset: the line is 1 plus the number of LFs before it, and the
/// column is 1 plus the number of bytes behind the last of them and before it. It takes no memory,
/// and time with the offset, so it is for faults.
pub fn place_of(text: &[u8], offset: u32) -> Place
    requires within { offset ≤ length text.now }
    requires few { offset ≤ 4194304 }
    ensures { result ≡ place_at text.now offset }
{
    let mut line = 1;
    let mut column = 1;
    for b in &text[..offset as usize] {
        if *b == b'\n' {
            line += 1;
            column = 1;
        } else {
            column += 1;
        }
    }
    Place { line, column }
}
