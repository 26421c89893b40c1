// The line that tells an operator why a call on a key file was refused.
ghost use Rattle.std.specs.Prelude.{◌≡◌};
ghost use Rattle.sp_keystate.specs.RefusedLines.{refused_line};

use crate::KeyRefused;

/// The line that tells this refusal, with its newline.
pub fn line_of(refused: KeyRefused) -> &'static str
    ensures { result.now ≡ refused_line refused }
{
    match refused {
        KeyRefused::KeeperFault => "keeper\n",
        KeyRefused::Unformatted => "keystate unformatted\n",
        KeyRefused::Formatted => "keystate formatted\n",
        KeyRefused::Exhausted { .. } => "keystate exhausted\n",
    }
}
