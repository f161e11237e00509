// Lines of text: a key, a decimal from 0 to 4,294,967,295 and byte 10; read and written.
#![tactic(auto)]

ghost use Rattle.std.specs.Prelude.{◌≡◌, ◌+◌, ◌≤◌, length};
ghost use Rattle.std.proofs.lemmas.List.Edits.{sets};
ghost use Rattle.meaning.specs.Text.{scan as Text·scan, number as Text·number, line as Text·line, decimal, line_of};
ghost use Rattle.text_lines.specs.Lines.{took_of};

// Reads the rest of a line, after digits that make `first`: the value, and what stands after the line.
fn scan(text: &[u8], first: u32) -> Option<(u32, &[u8])>
    ensures { took_of result ≡ Text·scan first text.now }
{
    let mut acc = first;
    for (i, &b) in text.iter().enumerate() {
        match b {
            b'\n' => return Some((acc, &text[i + 1..])),
            b'0'..=b'9' if acc != 0 => {
                acc = acc.checked_mul(10)?.checked_add(u32::from(b - b'0'))?
            }
            _ => return None,
        }
    }
    None
}

// Reads a decimal and byte 10. By hand, since the library takes a leading zero for right, which document 01 refuses.
fn number(text: &[u8]) -> Option<(u32, &[u8])>
    ensures { took_of result ≡ Text·number text.now }
{
    match text.split_first()? {
        (&b @ b'0'..=b'9', rest) => scan(rest, u32::from(b - b'0')),
        _ => None,
    }
}

// Reads a line: the key, a decimal and byte 10. Gives the value, and what stands after the line. Inlined, so that the key is known where it is compared.
#[inline]
#[tactic(auto, using(crate::proofs::Lines::line_is))]
pub fn line<'a>(text: &'a [u8], key: &[u8]) -> Option<(u32, &'a [u8])>
    ensures { took_of result ≡ Text·line key.now text.now }
{
    number(text.strip_prefix(key)?)
}

// Counts the digits of v.
#[tactic(auto, using(crate::proofs::Writing::log_length, crate::proofs::Writing::decimal_short))]
pub fn digits(v: u32) -> usize
    ensures { (result ≡ length (decimal v)) × (result ≤ 10) }
{
    v.checked_ilog10().unwrap_or(0) as usize + 1
}

// Writes the decimal of v into the whole of `out`, the last digit first.
#[tactic(auto, using(crate::proofs::Writing::padded_all, crate::proofs::Writing::padded_turn))]
fn put_decimal(out: &mut [u8], v: u32)
    requires { length out.old ≡ length (decimal v) }
    ensures { out.new ≡ decimal v }
{
    let mut rest = v;
    for i in (0..out.len()).rev() {
        out[i] = b'0' + (rest % 10) as u8;
        rest /= 10;
    }
}

// Writes a line at `at`, and gives where it ends: a place and no rest of the buffer, since the clause speaks of the whole of `out`.
#[tactic(auto, using(crate::proofs::Writing::line_length))]
pub fn put_line(out: &mut [u8], at: usize, key: &[u8], v: u32) -> usize
    requires { at + length (line_of key.now v) ≤ length out.old }
    ensures { (out.new ≡ sets out.old at (line_of key.now v)) × (result ≡ at + length (line_of key.now v)) }
{
    let a = at + key.len();
    let e = a + digits(v);
    out[at..a].copy_from_slice(key);
    put_decimal(&mut out[a..e], v);
    out[e] = b'\n';
    e + 1
}
