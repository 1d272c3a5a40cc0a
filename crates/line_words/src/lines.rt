ghost use Rattle.std.specs.Prelude.{◌≡◌};
ghost use Rattle.line_words.specs.Lines.{without_cr};

/// The line without one carriage return at its end.
#[tactic(auto, using(crate::proofs::LineEnds::cr_ends))]
pub fn without_cr(line: &[u8]) -> &[u8]
    ensures { result.now ≡ without_cr line.now }
{
    let Some(last) = line.last() else {
        return line;
    };
    if *last == b'\r' {
        &line[..line.len() - 1]
    } else {
        line
    }
}
