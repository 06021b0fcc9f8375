ghost use Rattle.std.specs.Prelude.{false, ◌≡◌, ◌<◌, ◌≤◌, ◌+◌, ◌-◌, ◌*◌, ◌^◌, get_or, slice_range};
ghost use Rattle.std.specs.Simd.Lanes.{mask_l};
ghost use Rattle.lat_ballots.specs.Row.{bits_of, common_count};

// Whether bit `t` is set.
#[tactic(auto, using(crate::proofs::OneBit::bit_read))]
pub(crate) fn is_set(words: &[u64; 4], t: u16) -> bool
    requires { t < 256 }
    ensures { result ≡ get_or (bits_of words.now) t false }
{
    (words[usize::from(t / 64)] >> (t % 64)) & 1 == 1
}

// All bits, in order.
pub(crate) fn to_array(words: &[u64; 4]) -> [bool; 256]
    ensures { result ≡ bits_of words.now }
{
    let mut bits = [false; 256];
    for t in 0..256 {
        bits[usize::from(t)] = is_set(words, t);
    }
    bits
}

// The word of that number and the next, of higher worth, as one number. No word follows the last.
fn join_words(words: &[u64; 4], word: u16) -> u128
    requires { word < 4 }
    ensures both { result ≡ get_or words.now (word + 1) 0 * 2 ^ 64 + get_or words.now word 0 }
    ensures low { get_or words.now word 0 < 2 ^ 64 }
{
    let high = if word < 3 {
        words[usize::from(word) + 1]
    } else {
        0
    };
    (u128::from(high) << 64) + u128::from(words[usize::from(word)])
}

// The bits from `first` to before `last`, at most 64, as one number: the first has worth 1.
pub(crate) fn bits_between(words: &[u64; 4], first: u16, last: u16) -> u64
    requires some { first < last }
    requires few { last - first ≤ 64 }
    requires within { last ≤ 256 }
    ensures { result ≡ mask_l (slice_range (bits_of words.now) first last) }
{
    let from_first = join_words(words, first / 64) >> (first % 64);
    let mask = (1u128 << (last - first)) - 1;
    (from_first & mask) as u64
}

// How many bits are set in both rows.
#[tactic(auto, using(crate::proofs::Common::word_more, crate::proofs::Common::word_last, crate::proofs::Common::word_few))]
pub(crate) fn count_common(words: &[u64; 4], others: &[u64; 4]) -> u16
    ensures { result ≡ common_count (bits_of words.now) (bits_of others.now) }
{
    let mut count: u16 = 0;
    for i in 0..4 {
        count += (words[i] & others[i]).count_ones() as u16;
    }
    count
}
