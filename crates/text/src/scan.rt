// Text read: where a byte stands, the words of a line and the numbers that they spell, and bytes in hexadecimal digits.
ghost use Rattle.std.specs.Prelude.{◌≡◌, ◌++◌, false, ◌+◌, ◌*◌, ◌/◌, ◌≤◌, ◌<◌, min, length, get_or, take, drop};
ghost use Rattle.text.specs.Find.{Ends};
ghost use Rattle.text.specs.Digits.{digit, pairs};
ghost use Rattle.text.specs.Words.{Starts, Stops, separates, further, spelled, numbers};

// Three walks, not one that takes a test: what each promises of the place differs (`Ends`, `Starts`, `Stops`), and by `position` the proof of
// `find` does not close.

// Where the byte stands first from a place on, or the length.
pub fn find(s: &[u8], at: usize, byte: u8) -> usize
    requires { at ≤ length s.now }
    ensures { Ends s.now at byte result }
{
    for i in at..s.len() {
        if s[i] == byte {
            return i;
        }
    }
    s.len()
}

// The numbers of a line's words into the front of out, as far as it goes; how many.
pub fn decimals(line: &[u8], out: &mut [u64]) -> usize
    ensures value { result ≡ min (length (numbers line.now)) (length out.old) }
    ensures out_after { out.new ≡ take result (numbers line.now) ++ drop result out.old }
{
    let mut at = word_start(line, 0);
    for (n, number) in out.iter_mut().enumerate() {
        if at == line.len() {
            return n;
        }
        let end = word_end(line, at);
        *number = decimal(&line[at..end]);
        at = word_start(line, end);
    }
    out.len()
}

// Where the next word starts from a place on, or the length.
fn word_start(line: &[u8], at: usize) -> usize
    requires { at ≤ length line.now }
    ensures { Starts line.now at result }
{
    for i in at..line.len() {
        if !is_separator(line[i]) {
            return i;
        }
    }
    line.len()
}

// Where the word that starts at a place ends.
fn word_end(line: &[u8], at: usize) -> usize
    requires at_in_bounds { at < length line.now }
    requires at_value { separates (get_or line.now at 0) ≡ false }
    ensures { Stops line.now at result }
{
    for i in at + 1..line.len() {
        if is_separator(line[i]) {
            return i;
        }
    }
    line.len()
}

// Does it stand between words?
#[tactic(auto, unfolding(crate::specs::Words::separates))]
fn is_separator(b: u8) -> bool
    ensures { result ≡ separates b }
{
    matches!(b, b' ' | b'\t' | b'\r')
}

// The number that decimal digits spell, the largest u64 where it is larger or a character is no digit.
fn decimal(word: &[u8]) -> u64
    ensures { result ≡ spelled word.now }
{
    word.iter().fold(0, |v, b| then(v, *b))
}

// A number with one more character behind it.
#[tactic(auto, unfolding(crate::specs::Words::further))]
fn then(v: u64, b: u8) -> u64
    ensures { result ≡ further v b }
{
    match b {
        b'0'..=b'9' => v.saturating_mul(10).saturating_add(u64::from(b - b'0')),
        _ => u64::MAX,
    }
}

// A hexadecimal digit's value, in small letters.
#[tactic(auto, unfolding(crate::specs::Digits::digit))]
fn digit_of(b: u8) -> u8
    ensures { result ≡ digit b }
{
    match b {
        b'0'..=b'9' => b - b'0',
        b'a'..=b'f' => b - b'a' + 10,
        _ => 0,
    }
}

// The bytes that pairs of hexadecimal digits spell, into the front of out as far as it goes; how many.
pub fn hex_bytes(s: &[u8], out: &mut [u8]) -> usize
    ensures value { result ≡ min (length s.now / 2) (length out.old) }
    ensures out_after { out.new ≡ pairs s.now result ++ drop result out.old }
{
    let n = out.len().min(s.len() / 2);
    for i in 0..n {
        out[i] = pair(s[2 * i], s[2 * i + 1]);
    }
    n
}

// The byte of two hexadecimal digits.
fn pair(high: u8, low: u8) -> u8
    ensures { result ≡ 16 * digit high + digit low }
{
    16 * digit_of(high) + digit_of(low)
}
