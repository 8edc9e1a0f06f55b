//! Profiles for examples and tests.
ghost use Rattle.std.specs.Prelude.{◌≡◌, IfOk};
ghost use Rattle.device_profile.specs.SampleTexts.{sample_text, sample_printer};

use crate::fault::ProfileFault;
use crate::profile::Profile;
use std::alloc::{AllocError, Allocator};

/// A profile for examples and tests.
#[derive(Clone, Copy, Debug, PartialEq, Eq)]
pub enum Sample {
    /// A printer whose panel may have letter and A4 paper in portrait and landscape; it has duplex,
    /// two trays and two faces.
    A,
    /// Sample A with letter paper in portrait alone.
    B,
    /// Sample B with two VMIs and two fonts.
    C,
    /// Sample B with narrower characters in face 1.
    D,
}

impl Sample {
    /// The text that describes the sample.
    pub fn text(self) -> &'static [u8]
        ensures { result.now ≡ sample_text self }
    {
        match self {
            Sample::A => TEXT_A,
            Sample::B => TEXT_B,
            Sample::C => TEXT_C,
            Sample::D => TEXT_D,
        }
    }

    /// The sample's profile, read from its text.
    ///
    /// An error means that the allocator refused a request.
    #[tactic(auto, using(crate::proofs::Examples::sample_is_read))]
    pub fn profile<A: Allocator + Copy>(self, alloc: A) -> Result<Profile<A>, AllocError>
        ensures { IfOk result (λ profile. profile ≡ sample_printer self) }
    {
        match Profile::read(alloc, self.text()) {
            Ok(profile) => Ok(profile),
            Err(ProfileFault::Memory) => Err(AllocError),
            Err(ProfileFault::Fault { .. }) => unreachable!(),
        }
    }
}

const TEXT_A: &[u8] = b"\
pclprofile 1
name A
size 2 26
orientation 0 1
vmi 8
font 1
copies 1
sides 0
tray 1
trays 1 2
duplex 1
depth 2
memory 100
geometry 2 0 61200 79200 1800 0 57600 79200 1200 1200 60000 78000
geometry 2 1 79200 61200 1440 0 76320 61200 1200 1200 78000 60000
geometry 26 0 59520 84168 1704 0 56112 84168 1200 1200 58320 82968
geometry 26 1 84168 59520 1416 0 81336 59520 1200 1200 82968 58320
face 1 10U 10 12 0 0 3 720 900 300 33-126
face 2 10U 12 10 0 0 3 600 750 250 33-126
";

const TEXT_B: &[u8] = b"\
pclprofile 1
name B
size 2
orientation 0
vmi 8
font 1
copies 1
sides 0
tray 1
trays 1 2
duplex 1
depth 2
memory 100
geometry 2 0 61200 79200 1800 0 57600 79200 1200 1200 60000 78000
geometry 2 1 79200 61200 1440 0 76320 61200 1200 1200 78000 60000
geometry 26 0 59520 84168 1704 0 56112 84168 1200 1200 58320 82968
geometry 26 1 84168 59520 1416 0 81336 59520 1200 1200 82968 58320
face 1 10U 10 12 0 0 3 720 900 300 33-126
face 2 10U 12 10 0 0 3 600 750 250 33-126
";

const TEXT_C: &[u8] = b"\
pclprofile 1
name C
size 2
orientation 0
vmi 6 8
font 1 2
copies 1
sides 0
tray 1
trays 1 2
duplex 1
depth 2
memory 100
geometry 2 0 61200 79200 1800 0 57600 79200 1200 1200 60000 78000
geometry 2 1 79200 61200 1440 0 76320 61200 1200 1200 78000 60000
geometry 26 0 59520 84168 1704 0 56112 84168 1200 1200 58320 82968
geometry 26 1 84168 59520 1416 0 81336 59520 1200 1200 82968 58320
face 1 10U 10 12 0 0 3 720 900 300 33-126
face 2 10U 12 10 0 0 3 600 750 250 33-126
";

const TEXT_D: &[u8] = b"\
pclprofile 1
name D
size 2
orientation 0
vmi 8
font 1
copies 1
sides 0
tray 1
trays 1 2
duplex 1
depth 2
memory 100
geometry 2 0 61200 79200 1800 0 57600 79200 1200 1200 60000 78000
geometry 2 1 79200 61200 1440 0 76320 61200 1200 1200 78000 60000
geometry 26 0 59520 84168 1704 0 56112 84168 1200 1200 58320 82968
geometry 26 1 84168 59520 1416 0 81336 59520 1200 1200 82968 58320
face 1 10U 10 12 0 0 3 700 900 300 33-126
face 2 10U 12 10 0 0 3 600 750 250 33-126
";
