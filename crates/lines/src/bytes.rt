// Little-endian words from bytes.
ghost use Rattle.std.specs.Prelude.{◌≡◌, ◌*◌, ◌%◌, ◌≤◌, length};
ghost use Rattle.lines.specs.Bytes.{ReadsWords};

// The words of bytes that are whole words, at the front of a buffer; how many they are.
pub fn read_words(bytes: &[u8], out: &mut [u32]) -> usize
    requires { (length bytes.now % 4 ≡ 0) × (length bytes.now ≤ 4 * length out.old) }
    ensures { ReadsWords bytes.now out.new result × (result ≤ length out.new) }
{
    let (words, _) = bytes.as_chunks::<4>();
    for (k, word) in words.iter().enumerate() {
        out[k] = u32::from_le_bytes(*word);
    }
    words.len()
}
