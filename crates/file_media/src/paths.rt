// Paths of files.
ghost use Rattle.std.specs.Prelude.{◌≡◌, ◌++◌, ◌∷◌, [], OnOk, codes, string_bytes};
ghost use Rattle.file_media.specs.Names.{file_text};

use crate::disk::{DiskFault, FileName};
use cta_site::NoMemory;
use itoa::Buffer;
use std::alloc::{AllocError, Global};

// The bytes that a name may have: 64 of a VID, two dots, 10 digits, 4 letters and the slash before it.
const NAME: usize = 81;

// A text with room for the path of any file of the folder.
pub(crate) fn with_room(alloc: Global, folder: &str) -> Result<String, NoMemory> {
    let path = String::with_capacity(alloc, folder.len().saturating_add(NAME))?;
    Ok(path)
}

// Adds the text of a name.
fn push_name(path: &mut String, name: FileName<'_>) -> Result<(), AllocError>
    ensures { OnOk result (string_bytes path.new ≡ string_bytes path.old ++ file_text name.entry) }
{
    path.push_str(name.vid)?;
    path.push_str(".")?;
    path.push_str(Buffer::new().format(name.fseq))?;
    if !name.whole {
        path.push_str(".part")?;
    }
    Ok(())
}

// Makes the text the path of the folder, with a slash at its end. It takes no memory where there is room.
pub(crate) fn set_folder(path: &mut String, folder: &str) -> Result<(), DiskFault>
    ensures { OnOk result (string_bytes path.new ≡ folder.now ++ 47 ∷ []) }
{
    path.clear();
    if path.push_str(folder).is_ok() && path.push_str("/").is_ok() {
        Ok(())
    } else {
        Err(DiskFault)
    }
}

// Makes the text the path of a file of the folder. It takes no memory where there is room.
pub(crate) fn set_path(path: &mut String, folder: &str, name: FileName<'_>) -> Result<(), DiskFault>
    ensures { OnOk result (string_bytes path.new ≡ folder.now ++ 47 ∷ file_text name.entry) }
{
    set_folder(path, folder)?;
    if push_name(path, name).is_ok() {
        Ok(())
    } else {
        Err(DiskFault)
    }
}

// Makes the text the path of the folder's lock. It takes no memory where there is room.
pub(crate) fn set_lock(path: &mut String, folder: &str) -> Result<(), DiskFault>
    ensures { OnOk result (string_bytes path.new ≡ folder.now ++ 47 ∷ codes "cta.lock") }
{
    set_folder(path, folder)?;
    if path.push_str("cta.lock").is_ok() {
        Ok(())
    } else {
        Err(DiskFault)
    }
}
