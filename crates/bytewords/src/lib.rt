// A buffer of words that is passed as bytes, two to a word, low byte first: its words read, put back and cleared.
#![tactic(auto)]

ghost use Rattle.std.specs.Prelude.{◌≡◌, ◌++◌, ◌*◌, ◌≤◌, length, take, drop};
ghost use Rattle.defs.specs.Computing.Bytes.{words_in, word_bytes, bytes_left};
ghost use Rattle.defs.specs.Computing.Calls.{cleared};

// The first words of the buffer.
pub fn take_words(bytes: &[u8], words: &mut [u16])
    requires { 2 * length words.old ≤ length bytes.now }
    ensures { words.new ≡ take (length words.old) (words_in bytes.now) }
{
    let n = words.len();
    for i in 0..n {
        words[i] = fields::number(bytes, 2 * i);
    }
}

// The words in place of the buffer's first ones.
pub fn put_words(words: &[u16], bytes: &mut [u8])
    requires { 2 * length words.now ≤ length bytes.old }
    ensures { bytes.new ≡ word_bytes words.now ++ drop (2 * length words.now) bytes.old }
{
    let n = words.len();
    for i in 0..n {
        fields::set_number(bytes, 2 * i, words[i]);
    }
}

// "A work buffer is zero after each call": its words, and not an odd last byte.
pub fn clear_words(bytes: &mut [u8])
    ensures { bytes.new ≡ bytes_left bytes.old (cleared (words_in bytes.old)) }
{
    let n = bytes.len() / 2 * 2;
    bytes[..n].fill(0);
}
