// A file by its name.
ghost use Rattle.std.specs.Prelude.{◌≡◌, map, IfSome, IfNone, Some, None};
ghost use Rattle.host_base.specs.Outsides.{stored_at};
ghost use Rattle.memory_world.specs.StoreWords.{stored_of};

use super::store::StoredFile;

/// The first file of the name.
pub fn find<'f>(files: &'f [StoredFile], name: &str) -> Option<&'f StoredFile>
    ensures found { IfSome result (λ file. stored_at name.now (map stored_of files.now) ≡ Some file.now.bytes) }
    ensures missing { IfNone result (stored_at name.now (map stored_of files.now) ≡ None) }
{
    for file in files {
        if name == file.name.as_str() {
            return Some(file);
        }
    }
    None
}
