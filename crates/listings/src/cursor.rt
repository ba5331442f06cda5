use cases::Tally;
use lists::Lines;
use std::io;

// Whether the next line has this number and these bytes.
fn hands_out(lines: &mut Lines<'_>, number: u32, bytes: &[u8]) -> bool {
    lines
        .next_line()
        .is_some_and(|line| line.number == number && line.bytes == bytes)
}

// The lines of files, one by one.
pub fn handed_out(tally: &mut Tally<'_>) -> io::Result<()> {
    let mut lines = Lines::new(b"S,B,1,0\n\nE,0\n");
    let right = hands_out(&mut lines, 1, b"S,B,1,0")
        && hands_out(&mut lines, 2, b"")
        && hands_out(&mut lines, 3, b"E,0")
        && lines.next_line().is_none()
        && lines.next_line().is_none();
    tally.tell("three lines handed out, the second empty", right)?;
    let mut lines = Lines::new(b"S,B,1,0\nE,0");
    let right = lines.next_line().is_none();
    tally.tell("no line of a file without its last line end", right)
}
