ghost use Rattle.reading.specs.Fields.{WrittenUpTo};

// The number that a field writes in decimal digits, if it is at most `most`.
// A `for`, since a fold would give up in the same three ways.
pub(crate) fn number(field: &[u8], most: u64) -> Option<u64>
    ensures cases { WrittenUpTo field.now most result }
{
    if field.is_empty() {
        return None;
    }
    let mut n: u64 = 0;
    'bytes: for b in field {
        let digit = match *b {
            b'0'..=b'9' => u64::from(*b - b'0'),
            _ => return None,
        };
        n = n.checked_mul(10)?.checked_add(digit)?;
        if n > most {
            return None;
        }
    }
    Some(n)
}
