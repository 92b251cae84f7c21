// Where a run of blanks or a word ends. The numbers of a line are words, and any run of blanks and
// tabs stands between two of them. A place is an index of the line, and not a part of it, since the
// next step goes on from there and a word lies between two.
ghost use Rattle.std.specs.Prelude.{Bool, true, ◌≡◌, ℕ, drop};
ghost use Rattle.text.specs.Words.{Decides, is_blank, is_ink, run, run_end};

// A blank or a tab.
pub fn is_blank(b: u8) -> bool
    ensures { result ≡ is_blank b }
{
    (b == b' ') | (b == b'\t')
}

// The place of the first byte from `at` on that does not pass, or the end.
fn skip<P: Fn(u8) -> bool>(s: &[u8], at: usize, passes: P) -> usize
    requires { P.IsAlwaysCallable passes }
    ensures { (p : ℕ → Bool) → Decides (P.post passes) p → result ≡ run_end p s.now at }
{
    match s.get(at..) {
        Some(rest) => at + rest.iter().position(|b| !passes(*b)).unwrap_or(rest.len()),
        None => at,
    }
}

// The place of the first byte from `at` on that is no blank, or the end.
pub fn skip_blanks(s: &[u8], at: usize) -> usize
    ensures { result ≡ run_end is_blank s.now at }
{
    skip(s, at, is_blank)
}

// The place of the first blank from `at` on, or the end.
pub fn skip_word(s: &[u8], at: usize) -> usize
    ensures { result ≡ run_end is_ink s.now at }
{
    skip(s, at, |b| !is_blank(b))
}

// Whether no word goes on at `at`: a blank stands there, or the line has ended.
pub(crate) fn is_past_word(s: &[u8], at: usize) -> bool
    ensures { result ≡ true → run is_ink (drop at s.now) ≡ 0 }
{
    s.get(at).is_none_or(|b| is_blank(*b))
}
