// The lines of the listing program, as bytes: numbers in decimal, and for a source the impls that its general set admits.
// They are put by hand: `write!` into a buffer answers a Result, and the functions here cannot fail.
#![tactic(auto)]

ghost use Rattle.std.specs.Prelude.{◌≡◌, [], ◌∷◌, ◌+◌, ◌≤◌, ◌<◌, length};
ghost use Rattle.rules.specs.Listing.{decimal};
ghost use Rattle.rules.specs.Layout.{header_definitions, header_impls};
ghost use Rattle.rules.specs.Sheet.{many};
ghost use Rattle.rules.specs.CheckLaws.{Checked};
ghost use Rattle.candidates.specs.Layout.{candidates_length};
ghost use Rattle.candidates.specs.Index.{Indexes};
ghost use Rattle.lines.specs.Text.{Puts};
ghost use Rattle.lines.specs.Lines.{PutsImpls, Line};

use candidates::find::next_admitted;

pub mod bytes;

// Puts a byte behind the first `at` bytes.
fn put(out: &mut [u8], at: usize, b: u8) -> usize
    requires { at < length out.old }
    ensures { Puts (b ∷ []) at out.old out.new result × (result ≤ length out.new) }
{
    out[at] = b;
    at + 1
}

// The byte of a digit.
fn digit(n: usize) -> u8
    requires { n < 10 }
    ensures { result ≡ 48 + n }
{
    48 + n as u8
}

// Puts a number below 1,000 in decimal.
pub fn put_number(out: &mut [u8], at: usize, n: usize) -> usize
    requires { (n < 1000) × (at + 3 ≤ length out.old) }
    ensures { Puts (decimal n) at out.old out.new result × (result ≤ length out.new) }
{
    if n < 10 {
        return put(out, at, digit(n));
    }
    if n < 100 {
        let next = put(out, at, digit(n / 10));
        return put(out, next, digit(n % 10));
    }
    let next = put(out, at, digit(n / 100));
    let last = put(out, next, digit(n / 10 % 10));
    put(out, last, digit(n % 10))
}

// Puts a space and a number below 1,000.
fn put_entry(out: &mut [u8], at: usize, i: usize) -> usize
    requires { (i < 1000) × (at + 4 ≤ length out.old) }
    ensures { Puts (32 ∷ decimal i) at out.old out.new result × (result ≤ at + 4) }
{
    let next = put(out, at, b' ');
    put_number(out, next, i)
}

// Puts a space and the id for each impl that the set of a node admits, rising; each is looked for behind the one before it.
fn put_impls(s: &[u32], ws: &[u32], node: usize, out: &mut [u8], at: usize) -> usize
    requires { Indexes s.now ws.now × (node < 384) × (many s.now header_impls ≤ 128) × (at + 512 ≤ length out.old) }
    ensures { PutsImpls s.now ws.now node at out.old out.new result × (result ≤ at + 512) }
{
    let mut end = at;
    let mut from = 0;
    while let Some(i) = next_admitted(s, ws, node, from) {
        end = put_entry(out, end, i);
        from = i + 1;
    }
    end
}

// The line of a definition: its id, a colon, and the impls that its general set admits. So many bytes of the buffer hold it.
pub fn list_line(s: &[u32], ws: &mut [u32], d: usize, out: &mut [u8]) -> usize
    requires { Checked s.now × (length s.now ≤ 4096) × (d < many s.now header_definitions) × (candidates_length ≤ length ws.old) × (520 ≤ length out.old) }
    ensures { Line s.now d out.new result × (result ≤ length out.new) }
{
    candidates::build(s, ws, d);
    let colon = put_number(out, 0, d);
    let impls = put(out, colon, b':');
    let end = put_impls(s, ws, 3 * d + 2, out, impls);
    put(out, end, b'\n')
}
