// Tests of bytes, and of what they make up.
ghost use Rattle.std.specs.Prelude.{Bool, ℕ, ◌≡◌};
ghost use Rattle.std.specs.List.{prefix_len};
ghost use Rattle.rules.specs.Lists.{each};
ghost use Rattle.rules.specs.Text.{allowed, is_bar, white, name_byte, name_of, sharp};
ghost use Rattle.text.specs.Pieces.{Tests, no_colon};

#[tactic(auto, unfolding(rules::specs::Text::white))]
pub fn is_white(b: u8) -> bool
    ensures { result ≡ white b }
{
    matches!(b, b' ' | b'\t' | b'\r')
}

#[tactic(auto, unfolding(rules::specs::Text::allowed))]
fn is_allowed(b: u8) -> bool
    ensures { result ≡ allowed b }
{
    if b < b' ' {
        matches!(b, b'\t' | b'\n' | b'\r')
    } else {
        b <= b'~'
    }
}

#[tactic(auto, unfolding(rules::specs::Text::name_byte))]
fn is_name_byte(b: u8) -> bool
    ensures { result ≡ name_byte b }
{
    matches!(b, b'0'..=b'9' | b'A'..=b'Z' | b'a'..=b'z' | b'#')
}

// How many bytes of a text pass a test before the first that fails it.
pub fn prefix_len<F: FnMut(&&u8) -> bool>(text: &[u8], test: F) -> usize
    requires { (f : F) (b : _) → F.pre f b }
    ensures { (p : ℕ → Bool) → Tests F.FnMut test p → result ≡ prefix_len p text.now }
{
    text.iter().take_while(test).count()
}

// How many bytes stand before the first colon.
pub fn name_len(token: &[u8]) -> usize
    ensures { result ≡ prefix_len no_colon token.now }
{
    prefix_len(token, |b| **b != b':')
}

#[tactic(auto, using(crate::proofs::Mirror::each_all))]
pub fn is_clean(line: &[u8]) -> bool
    ensures { result ≡ each allowed line.now }
{
    line.iter().all(|b| is_allowed(*b))
}

#[tactic(auto, using(crate::proofs::Mirror::each_all))]
pub fn is_name(token: &[u8]) -> bool
    ensures { result ≡ each name_byte token.now }
{
    token.iter().all(|b| is_name_byte(*b))
}

pub fn has_sharp(token: &[u8]) -> bool
    ensures { result ≡ sharp token.now }
{
    prefix_len(token, |b| **b != b'#') < token.len()
}

#[tactic(auto, using(crate::proofs::Mirror::same_pointwise))]
pub fn is_bar(token: &[u8]) -> bool
    ensures { result ≡ is_bar token.now }
{
    token == b"|".as_slice()
}

// What stands before the first colon of a token.
pub fn name_of(token: &[u8]) -> &[u8]
    ensures { result.now ≡ name_of token.now }
{
    &token[..name_len(token)]
}
