//! What a script says that a crash leaves of a device, and the disk that this makes.
ghost use Rattle.std.specs.Prelude.{◌≡◌, ◌<◌, ◌+◌, ◌-◌, ◌^◌, ◌++◌, ℕ, List, None, Some, length, replicate, IfOk, IfErr, OnOk};
ghost use Rattle.disk_model.specs.Cells.{put, settled};
ghost use Rattle.disk_model.specs.Memory.{plain_cells};
ghost use Rattle.world_rules.specs.Wrong.{wrong_in};
ghost use Rattle.world_rules.specs.Crashes.{cells_left, patched, with_patches, wrong_on};
ghost use Rattle.member_store.specs.Left.{IsLeft, Tells};

use crate::crash::CrashFault;
use disk_model::plain::PlainDisk;
use smart_base::sequence::Bytes;
use std::alloc::{AllocError, Global};
use world_rules::crash::{Image, NotAnImage, Patch};

/// What is left of a device. It may be longer than any memory. Its first bytes are here, at most as
/// many as the device may have had.
#[derive(Drop)]
struct Left {
    bytes: Vec<u8>,
    /// The length of all that is left, in bytes.
    length: u128,
}

impl Left {
    /// Puts a patch over what is there, for a device that may have had so many bytes.
    fn patch(&mut self, patch: &Patch, greatest: u64) -> Result<(), AllocError>
        ensures { OnOk result ((whole : List ℕ) → IsLeft greatest whole self.old → IsLeft greatest (patched patch.now whole) self.new) }
    {
        let at = patch.at.min(greatest);
        let count = (patch.bytes.len() as u64).min(greatest - at);
        let (front, _) = patch.bytes.as_slice().split_at(count as usize);
        write(&mut self.bytes, at, front)?;
        let upto = patch.at as u128 + patch.bytes.len() as u128;
        self.length = self.length.max(upto);
        Ok(())
    }
}

/// Writes bytes over what is there, and past its end, with zeros in a gap.
fn write(contents: &mut Vec<u8>, at: u64, bytes: &[u8]) -> Result<(), AllocError>
    requires { at + length bytes.now < 2 ^ 64 }
    ensures { OnOk result (contents.new.items ≡ put at bytes.now (contents.old.items ++ replicate (at - length contents.old.items) 0)) }
{
    let at = at as usize;
    let upto = at + bytes.len();
    let length = contents.len().max(upto);
    contents.resize(length, 0)?;
    contents[at..upto].copy_from_slice(bytes);
    Ok(())
}

/// The bytes of a device that a crash changes.
fn bytes_left(alloc: Global, disk: &PlainDisk, image: Image) -> Result<Bytes, AllocError>
    ensures { IfOk result (λ bytes. bytes ≡ cells_left image (plain_cells disk.now)) }
{
    match image {
        Image::Old => disk.as_synced(alloc),
        Image::New => Bytes::from_slice(alloc, disk.as_read()),
    }
}

/// What is left of a device, with all its patches.
fn with_patches(
    alloc: Global,
    device: u64,
    disk: &PlainDisk,
    image: Image,
    patches: &[Patch],
) -> Result<Left, AllocError>
    ensures { IfOk result (λ left. IsLeft (plain_cells disk.now).greatest (with_patches device patches.now (cells_left image (plain_cells disk.now))) left) }
{
    let bytes = bytes_left(alloc, disk, image)?.into_vec();
    let length = bytes.len() as u128;
    let mut left = Left { bytes, length };
    for patch in patches {
        if patch.device == device {
            left.patch(patch, disk.greatest())?;
        }
    }
    Ok(left)
}

/// The disk with what is left, or else the first wrong byte.
fn disk_with(alloc: Global, disk: &PlainDisk, left: Left) -> Result<PlainDisk, u128>
    ensures ok { IfOk result (λ d. (whole : List ℕ) → IsLeft (plain_cells disk.now).greatest whole left → (wrong_in (plain_cells disk.now) whole ≡ None) × (plain_cells d ≡ settled whole)) }
    ensures not { IfErr result (λ at. (whole : List ℕ) → IsLeft (plain_cells disk.now).greatest whole left → wrong_in (plain_cells disk.now) whole ≡ Some at) }
{
    let Left { bytes, length } = left;
    let next = match disk.image(alloc, Bytes::from_vec(bytes)) {
        Ok(next) => next,
        Err(wrong) => return Err(wrong.at as u128),
    };
    if length > disk.greatest() as u128 {
        return Err(length);
    }
    Ok(next)
}

/// The disk that a crash leaves of another, as a script says.
pub fn disk_left(
    alloc: Global,
    device: u64,
    disk: &PlainDisk,
    image: Image,
    patches: &[Patch],
) -> Result<PlainDisk, CrashFault>
    ensures ok { IfOk result (λ d. let whole = with_patches device patches.now (cells_left image (plain_cells disk.now)) in
        (wrong_on device (plain_cells disk.now) whole ≡ None) × (plain_cells d ≡ settled whole)) }
    ensures not { IfErr result (λ e. Tells e (wrong_on device (plain_cells disk.now) (with_patches device patches.now (cells_left image (plain_cells disk.now))))) }
{
    let left = with_patches(alloc, device, disk, image, patches)?;
    match disk_with(alloc, disk, left) {
        Ok(next) => Ok(next),
        Err(at) => Err(CrashFault::NotAnImage(NotAnImage { device, at })),
    }
}
