// The words of a line.
ghost use Rattle.std.specs.Prelude.{◌≡◌, ◌≤◌, length};
ghost use Rattle.std.specs.Option.{option_copied};
ghost use Rattle.std.specs.List.{position_or_len};
ghost use Rattle.script.specs.Words.{word_at, words_of};

/// Word `k`, from 0, of a line, or nothing where it has fewer.
pub fn word_at(line: &[u8], k: usize) -> Option<&[u8]>
    ensures { option_copied result ≡ word_at line.now k }
{
    line.split(|b| *b == b' ').nth(k)
}

/// How many words a line has.
pub fn word_count(line: &[u8]) -> usize
    ensures { result ≡ length (words_of line.now) }
{
    line.split(|b| *b == b' ').count()
}
