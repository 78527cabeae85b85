// The device that a text describes.
ghost use Rattle.std.specs.Prelude.{◌≡◌};
ghost use Rattle.refusals.specs.Refusals.{told};
ghost use Rattle.devices.specs.Describing.{described, refused_at, description_of};
ghost use Rattle.devices.specs.Forms.{problem_of};

use crate::Device;
use refusals::Refusal;

/// What a text describes, or its refusal. A text whose first word is not `table` is read as a circuit's.
pub fn describe(text: &[u8]) -> Result<Device, Refusal>
    ensures { told (λ d. described (problem_of d)) refused_at result ≡ description_of text.now }
{
    if tables::is_table(text) {
        return Ok(Device::from(tables::parse(text)?));
    }
    Ok(Device::from(netlist::parse(text)?))
}
