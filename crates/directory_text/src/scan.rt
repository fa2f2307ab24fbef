// Where the parts of a text begin and end.
ghost use Rattle.std.specs.Prelude.{◌≡◌, drop};
ghost use Rattle.directory_text.specs.Scan.{is_blank, is_before, front, behind, word_of, behind_word};

#[tactic(auto, unfolding(crate::specs::Scan::is_blank))]
fn is_blank(character: u8) -> bool
    ensures { result ≡ is_blank character }
{
    character == b' ' || character == b'\t' || character == b'\r'
}

// What stands behind the blanks in front.
pub fn behind_blanks(text: &[u8]) -> &[u8]
    ensures { result.now ≡ behind is_blank text.now }
{
    let end = text
        .iter()
        .position(|character| !is_blank(*character))
        .unwrap_or(text.len());
    &text[end..]
}

// The first word, and what stands behind it.
pub fn first_word(text: &[u8]) -> (&[u8], &[u8])
    ensures word { result.0.now ≡ word_of text.now }
    ensures rest { result.1.now ≡ behind_word text.now }
{
    let text = behind_blanks(text);
    let end = text
        .iter()
        .position(|character| is_blank(*character))
        .unwrap_or(text.len());
    text.split_at(end)
}

// What stands before a character, and the rest, which begins with it.
pub fn split_before(text: &[u8], other: u8) -> (&[u8], &[u8])
    ensures before { result.0.now ≡ front (is_before other) text.now }
    ensures rest { result.1.now ≡ behind (is_before other) text.now }
{
    let end = text
        .iter()
        .position(|character| *character == other)
        .unwrap_or(text.len());
    text.split_at(end)
}

// What stands behind the first character.
pub fn behind_one(text: &[u8]) -> &[u8]
    ensures { result.now ≡ drop 1 text.now }
{
    text.get(1..).unwrap_or(&[])
}
