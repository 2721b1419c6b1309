// A case's head, and its words, numbers and places from its bytes.
ghost use Rattle.std.specs.Prelude.{◌≡◌, ◌<◌, ◌≤◌, length, IfSome};
ghost use Rattle.panel_file.specs.LittleEndian.{little_endian};
ghost use Rattle.replay_words.specs.Words.{size_of};
ghost use Rattle.replay_cases.specs.Case as Spec;

// The kind of a case, from its first two words.
pub fn kind(head: &[u8]) -> u64
    requires { 16 ≤ length head.now }
    ensures { result ≡ little_endian 4 head.now 0 }
{
    panel_file::little_endian(head, 0, 4)
}

// How many words of input and of results follow them, if these are at most 2,048.
pub fn size(head: &[u8]) -> Option<usize>
    requires { 16 ≤ length head.now }
    ensures value { result ≡ size_of (little_endian 4 head.now 4) (little_endian 8 head.now 8) }
    ensures upper_bound { IfSome result (λ n. n ≤ 2048) }
{
    let inputs = panel_file::little_endian(head, 4, 4);
    let results = panel_file::little_endian(head, 8, 8);
    match inputs.checked_add(results) {
        Some(size) if size <= 2048 => Some(size as usize),
        _ => None,
    }
}

fn word_at(b: &[u8; 16384], k: usize) -> u64
    requires { k < 2048 }
    ensures { result ≡ Spec.word_at b.now k }
{
    let all = &b[..];
    panel_file::little_endian(all, k * 8, 8)
}

fn number_at(w: &[u64; 2048], k: usize) -> f64
    requires { k < 2048 }
    ensures { result ≡ Spec.number_at w.now k }
{
    panel_file::from_bits(w[k])
}

fn place_at(w: &[u64; 2048], k: usize) -> usize
    requires { k < 2048 }
    ensures { result ≡ Spec.place_at w.now k }
{
    w[k] as usize
}

pub fn words(b: &[u8; 16384]) -> [u64; 2048]
    ensures { result ≡ Spec.words_of b.now }
{
    std::array::from_fn(|k| word_at(b, k))
}

pub fn numbers(w: &[u64; 2048]) -> [f64; 2048]
    ensures { result ≡ Spec.numbers_of w.now }
{
    std::array::from_fn(|k| number_at(w, k))
}

pub fn places(w: &[u64; 2048]) -> [usize; 2048]
    ensures { result ≡ Spec.places_of w.now }
{
    std::array::from_fn(|k| place_at(w, k))
}
