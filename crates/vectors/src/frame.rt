// A case, its frame's head and numbers, and the checksum of an area.
ghost use Rattle.std.specs.Prelude.{◌≡◌, ◌≤◌, ◌<◌, ◌*◌, ◌%◌, Some, length};
ghost use Rattle.vectors.specs.Frame.{little, call_of, case_head, adler32};

// What a case calls.
#[derive(Clone, Copy)]
pub enum Call {
    Close,
    Round,
    Ask,
}

impl Call {
    // The call that a byte names, if it names one. It is no TryFrom: its one use wants an Option, and would drop an error at once.
    #[tactic(auto, unfolding(crate::specs::Frame::call_of))]
    fn of(byte: u8) -> Option<Call>
        ensures { result ≡ call_of byte }
    {
        match byte {
            0 => Some(Call::Close),
            1 => Some(Call::Round),
            2 => Some(Call::Ask),
            _ => None,
        }
    }
}

// What stands before a case's rules, rows and order; None for the call if its byte names none.
#[derive(Clone, Copy)]
pub struct Head {
    pub call: Option<Call>,
    pub kinds: usize,
    pub capacity: usize,
    pub rounds: usize,
    pub table: usize,
    pub work: usize,
    pub fill: u8,
}

// A case: the call that its head names, the head and the three parts.
#[derive(Clone, Copy)]
pub struct Case<'a> {
    pub call: Call,
    pub head: Head,
    pub rules: &'a [u8],
    pub rows: &'a [u8],
    pub order: &'a [u8],
    ghost named: { head.call ≡ Some call },
}

// The number that at most 8 little-endian bytes spell: zeros after the last byte leave it as it is, so one reading of 8 bytes serves every width.
#[tactic(auto, using(crate::proofs::Numbers::read_padded))]
pub fn number(bytes: &[u8]) -> usize
    requires { length bytes.now ≤ 8 }
    ensures { result ≡ little bytes.now }
{
    let mut padded = [0; 8];
    padded[..bytes.len()].copy_from_slice(bytes);
    usize::from_le_bytes(padded)
}

// Takes a head from its 34 bytes.
#[tactic(auto, unfolding(crate::specs::Frame::case_head))]
pub fn head_of(bytes: &[u8]) -> Head
    requires { 34 ≤ length bytes.now }
    ensures { result ≡ case_head bytes.now }
{
    Head {
        call: Call::of(bytes[0]),
        kinds: number(&bytes[1..9]),
        capacity: number(&bytes[9..17]),
        rounds: number(&bytes[17..25]),
        table: number(&bytes[25..29]),
        work: number(&bytes[29..33]),
        fill: bytes[33],
    }
}

// What the sums of a checksum are taken modulo.
const BASE: usize = 65521;

// A sum that is less than twice BASE, modulo BASE, without a division: a case's areas have up to 114,944 bytes, and each takes two such sums.
fn reduced(sum: usize) -> usize
    requires { sum < 2 * BASE }
    ensures { result ≡ sum % BASE }
{
    if sum < BASE { sum } else { sum - BASE }
}

// The Adler-32 checksum, by which a case shows what an area holds after the call. A loop can keep that both sums stay below BASE, where a fold cannot.
#[tactic(auto, using(crate::proofs::Numbers::adler_next, crate::proofs::Numbers::adler_end), unfolding(crate::specs::Frame::adler32))]
pub fn checksum(bytes: &[u8]) -> usize
    ensures { result ≡ adler32 bytes.now }
{
    let mut low = 1;
    let mut high = 0;
    for byte in bytes {
        low = reduced(low + usize::from(*byte));
        high = reduced(high + low);
    }
    high * 65536 + low
}
