// What report and repair try first.
ghost use Rattle.std.specs.Prelude.{◌≡◌, IfOk};
ghost use Rattle.net.specs.Call.{call_refusal};
ghost use Rattle.net.specs.AcceptedNet.{IsNetOf};
ghost use Rattle.net.specs.Numbers.{checked};

use crate::Net;
use crate::layout::MOST_LAYERS;
use crate::read::net_of;
use crate::refusal::Refusal;

// The net of a file, or the first of 1 on the stage, 2 to 11 and 20 on the file.
pub fn accepted_net(stage: u32, file: &[u8]) -> Result<Net<'_>, Refusal>
    ensures verdict { checked result ≡ call_refusal stage file.now }
    ensures net { IfOk result (IsNetOf file.now) }
{
    if stage == 0 || u32::from(MOST_LAYERS) < stage {
        return Err(Refusal::StageOutside);
    }
    net_of(file)
}
