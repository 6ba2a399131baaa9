// What is found in files: bytes that part them, words, runs of words, and chars.
ghost use Rattle.std.specs.Prelude.{◌≡◌, ◌≤◌, ◌<◌, length, take, drop};

// What is before the first such byte, and what is behind it. Where there is none, all is before it.
pub fn cut_at(bytes: &[u8], wanted: u8) -> (&[u8], &[u8])
    ensures shorter { 0 < length bytes.now → length result.1.now < length bytes.now }
    ensures within { length result.1.now ≤ length bytes.now }
{
    match bytes.iter().position(|byte| *byte == wanted) {
        Some(place) => (&bytes[..place], &bytes[place + 1..]),
        None => (bytes, &[]),
    }
}

// A run of so many words, and what is behind it. Where there are not so many, all are the run.
pub fn cut_run(words: &[u32], count: u32) -> (&[u32], &[u32])
    ensures run { result.0.now ≡ take count words.now }
    ensures rest { result.1.now ≡ drop count words.now }
{
    words.split_at(words.len().min(count as usize))
}

// The words of a file, the highest byte first: as many as there is room for, and how many they are.
pub fn get_words(file: &[u8], words: &mut [u32]) -> usize
    ensures { (result ≤ length words.new) × (result ≡ length (take result words.new)) }
{
    let (chunks, _) = file.as_chunks::<4>();
    for (word, bytes) in words.iter_mut().zip(chunks) {
        *word = u32::from_be_bytes(*bytes);
    }
    chunks.len().min(words.len())
}

// The chars of words: as many as there is room for, and how many they are.
pub fn get_chars(words: &[u32], chars: &mut [u16]) -> usize
    ensures { (result ≤ length chars.new) × (result ≡ length (take result chars.new)) }
{
    for (char, word) in chars.iter_mut().zip(words) {
        *char = (*word % 65536) as u16;
    }
    words.len().min(chars.len())
}
