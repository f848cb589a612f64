// The unit itself: how it is made, looked at and taken apart.
ghost use Rattle.std.specs.Prelude.{◌≡◌};
ghost use Rattle.model.specs.Models.{empty_state, model_of};
ghost use Rattle.model.specs.Represents.{Represents};

use blocks::BlockDevice;
use model::State;

// What the unit knows, and the device that it asks. No Model: a view of the state and the device's meaning could not say
// that a call leaves the device itself as it was, with what its meaning leaves out; a view that holds the device is these
// fields again.
// Calls take a work block as a slice, and test its length: a wrong one is a refusal, which an array would ask of callers.
// Their contracts say that it keeps its length (WorkBlock), so that a caller reads there that nothing else of it is decided.
#[derive(Drop)]
pub struct PackUnit<D> {
    pub(crate) state: State,
    pub(crate) device: D,
}

impl<D: BlockDevice> PackUnit<D> {
    // A unit with no pack up, no date, and all numbers free.
    pub fn new(device: D) -> PackUnit<D>
        ensures device { result.device ≡ device }
        ensures empty { Represents (model_of empty_state (D.BlockDevice.meaning device)) result.state (D.BlockDevice.meaning result.device) }
    {
        PackUnit {
            state: State::new(),
            device,
        }
    }

    // The device, to be looked at.
    pub fn device(&self) -> &D
        ensures { result.now ≡ self.now.device }
    {
        &self.device
    }

    // The device, taken out of the unit.
    pub fn into_device(self) -> D
        ensures { result ≡ self.device }
    {
        self.device
    }
}
