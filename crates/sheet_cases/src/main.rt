// The same library as `sheet`, on files of data/: what it prints is held to a model's text. Then on as many empty lines as are taken
// (R8.11), and on a byte after them: of these texts, which are long, the end is printed.
#![tactic(auto)]

use std::fs::File;
use std::io;
use std::io::{Read, Seek, SeekFrom, Write};

// Where the text of line 32,768 begins, after those of 32,767 empty lines.
const LAST_LINE: u64 = 382098;

fn of_file<W: Write>(rt: &HostRuntime, name: &str, output: &mut W) -> io::Result<()> {
    let mut file = File::open(rt, name)?;
    sheet_stream::run(&mut file, output, &mut rt.stderr());
    Ok(())
}

// 32,768 newlines, and the bytes after them. The files are made in the folder that the program is run in, which has a copy of data/.
fn of_newlines(rt: &HostRuntime, after: &[u8]) -> io::Result<()> {
    write_newlines(rt, after)?;
    let mut output = File::create(rt, "output")?;
    of_file(rt, "input", &mut output)?;
    show_from(rt, "output", LAST_LINE)
}

fn write_newlines(rt: &HostRuntime, after: &[u8]) -> io::Result<()> {
    let mut input = File::create(rt, "input")?;
    let newlines = [b'\n'; 32768];
    input.write_all(&newlines)?;
    input.write_all(after)
}

// The bytes of a file from this one on, 64 at most.
fn show_from(rt: &HostRuntime, name: &str, at: u64) -> io::Result<()> {
    let mut file = File::open(rt, name)?;
    file.seek(SeekFrom::Start(at))?;
    let mut bytes = [0u8; 64];
    let n = file.read(&mut bytes)?;
    rt.stdout().write_all(&bytes[..n])
}

fn main(rt: HostRuntime) -> io::Result<()> {
    let mut output = rt.stdout();
    of_file(&rt, "example", &mut output)?;
    of_file(&rt, "branches", &mut output)?;
    of_file(&rt, "refusals", &mut output)?;
    of_file(&rt, "cases", &mut output)?;
    of_file(&rt, "unended", &mut output)?;
    of_file(&rt, "empty", &mut output)?;
    of_file(&rt, "minus_zero", &mut output)?;
    of_file(&rt, "minus_zeros", &mut output)?;
    of_file(&rt, "plus_zero", &mut output)?;
    of_newlines(&rt, b"")?;
    of_newlines(&rt, b"x")
}
