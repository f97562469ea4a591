// The judge of a whole file. The laws here hold `chunks`, which judges a file in parts, against the rules.
#![tactic(auto)]

ghost use Rattle.std.specs.Prelude.{◌≡◌};
ghost use Rattle.rules.specs.File.{judge_file};
ghost use Rattle.chunks.specs.Values.{verdict_of};

use chunks::Verdict;

#[tactic(auto, using(crate::proofs::Whole::judged_is, chunks::proofs::Bytes::bytes_by))]
pub fn judge(file: &[u8]) -> Verdict
    ensures { verdict_of result ≡ judge_file file.now }
{
    chunks::finish(chunks::start(), file)
}
