// Whether a question's text is let through and its view lies within it. Assumes nothing.
ghost use Rattle.std.specs.Prelude.{◌≡◌};
ghost use Rattle.questions_fit.specs.Views.{view_fits};

use preproc_test::test_text;

pub fn view_fits(text: &[u8], start: usize, end: usize, edition: u32) -> bool
    ensures { result ≡ view_fits edition start end text.now }
{
    test_text(edition, text).is_ok_and(|lines| end <= lines && start <= end)
}
