// The listing program: a sheet's little-endian words on standard input, and for each definition a line with the impls that its general set admits.
// A refused sheet prints its number alone; bytes that are no whole words, or too many, print 1.
#![tactic(auto)]

ghost use Rattle.std.specs.Prelude.{◌≡◌, ◌≤◌, ◌<◌, IfOk, length};
ghost use Rattle.rules.specs.Layout.{header_definitions};
ghost use Rattle.rules.specs.Sheet.{many};
ghost use Rattle.rules.specs.CheckLaws.{Checked};
ghost use Rattle.candidates.specs.Layout.{candidates_length};

use std::io;
use std::io::Read;

// The bytes of a sheet, and one more by which too many are seen.
const BYTES: usize = 16385;

// The words of a sheet.
const SHEET: usize = 4096;

// The words that checks and candidates work in.
const WORKSPACE: usize = 90112;

// Reads until the buffer is full or the input ends, and answers how many bytes it put at the front. (No method of the library does: `read_exact` refuses a short input.)
fn read_full<R: Read>(source: &mut R, buf: &mut [u8]) -> io::Result<usize>
    ensures { IfOk result (λ n. n ≤ length buf.new) }
{
    let mut done = 0;
    for _ in 0..buf.len() {
        let n = source.read(&mut buf[done..])?;
        if n == 0 {
            break;
        }
        done += n;
    }
    Ok(done)
}

// Prints the line of a definition.
fn print_line(rt: &impl Print, s: &[u32], ws: &mut [u32], d: usize) -> io::Result<()>
    requires { Checked s.now × (length s.now ≤ 4096) × (d < many s.now header_definitions) × (candidates_length ≤ length ws.old) }
{
    let mut out = [0u8; 4096];
    let k = lines::list_line(s, ws, d, &mut out);
    rt.write_all(&out[..k])
}

// Prints the lines of all definitions.
fn print_lines(rt: &impl Print, s: &[u32], ws: &mut [u32]) -> io::Result<()>
    requires { Checked s.now × (length s.now ≤ 4096) × (candidates_length ≤ length ws.old) }
{
    for d in 0..chart::count_of(s, chart::layout::DEFINITIONS) {
        print_line(rt, s, ws, d)?;
    }
    Ok(())
}

// Prints the listing of a sheet.
fn list(rt: &impl Print, s: &[u32], ws: &mut [u32]) -> io::Result<()>
    requires { 90112 ≤ length ws.old }
{
    if let Err(refusal) = checks::check_listing(s, ws) {
        let n = refusal.number();
        return println!(rt; "{n}");
    }
    print_lines(rt, s, ws)
}

// Prints the listing of some bytes.
fn list_bytes(rt: &impl Print, bytes: &[u8], words: &mut [u32], ws: &mut [u32]) -> io::Result<()>
    requires { (4096 ≤ length words.old) × (90112 ≤ length ws.old) }
{
    if 16384 < bytes.len() || bytes.len() % 4 != 0 {
        return println!(rt; "1");
    }
    let n = lines::bytes::read_words(bytes, words);
    list(rt, &words[..n], ws)
}

fn main(rt: HostRuntime) -> io::Result<()> {
    let mut bytes = [0u8; BYTES];
    let n = read_full(&mut rt.reader(), &mut bytes)?;
    let mut words = [0u32; SHEET];
    let mut ws = [0u32; WORKSPACE];
    list_bytes(&rt, &bytes[..n], &mut words, &mut ws)
}
