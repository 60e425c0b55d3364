// The number in a field.
ghost use Rattle.std.specs.Prelude.{◌≡◌, true, cond, pos, Some, None};
ghost use Rattle.std.specs.Char.{is_ascii_digit};
ghost use Rattle.std.specs.List.{list_all};
ghost use Rattle.text.specs.Fields.{value_after, is_natural, value, is_number};

const MOST_DIGITS: usize = 10;

fn all_digits(bytes: &[u8]) -> bool
    ensures { result ≡ list_all is_ascii_digit bytes.now }
{
    bytes.iter().all(|byte| byte.is_ascii_digit())
}

// One to ten digits, of which the first is 0 only if it stands alone.
fn is_natural(digits: &[u8]) -> bool
    ensures { result ≡ is_natural digits.now }
{
    match digits.first() {
        None => false,
        Some(b'0') => digits.len() == 1,
        Some(_) => digits.len() <= MOST_DIGITS && all_digits(digits),
    }
}

fn digits_value(digits: &[u8]) -> i64
    requires { is_natural digits.now ≡ true }
    ensures { result ≡ pos (value_after 0 digits.now) }
{
    let mut number = 0;
    for digit in digits {
        number = 10 * number + i64::from(*digit - b'0');
    }
    number
}

// The natural number that digits write.
fn natural_in(digits: &[u8]) -> Option<i64>
    ensures { result ≡ cond (is_natural digits.now) (Some (pos (value_after 0 digits.now))) None }
{
    if !is_natural(digits) {
        return None;
    }
    Some(digits_value(digits))
}

// The number that a field writes; no minus stands before 0.
pub(crate) fn number_in(field: &[u8]) -> Option<i64>
    ensures { result ≡ cond (is_number field.now) (Some (value field.now)) None }
{
    let Some(digits) = field.strip_prefix(b"-") else {
        return natural_in(field);
    };
    let magnitude = natural_in(digits)?;
    if magnitude == 0 {
        return None;
    }
    Some(-magnitude)
}
