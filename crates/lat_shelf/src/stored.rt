ghost use Rattle.std.specs.Prelude.{◌≡◌, ◌<◌, None, length, option_map, IfNone, IfSome, slice_get};
ghost use Rattle.std.specs.FinMap.{get};
ghost use Rattle.lat_shelf.specs.Stored.{files_of, left_of};

/// A file in memory.
#[derive(Drop)]
pub struct Stored {
    pub name: String,
    pub bytes: Vec<u8>,
}

/// The place of the newest file of this name, the newest standing first.
pub fn place_of(stored: &[Stored], name: &str) -> Option<usize>
    ensures missing { IfNone result (get (files_of stored.now) name.now ≡ None) }
    ensures within { IfSome result (λ place. place < length stored.now) }
    ensures found { IfSome result
        (λ place. get (files_of stored.now) name.now
        ≡ option_map (λ file. file.bytes.items) (slice_get stored.now place)) }
{
    for (i, file) in stored.iter().enumerate() {
        if file.name.as_str() == name {
            return Some(i);
        }
    }
    None
}

/// What is left of the open file after `at` bytes.
pub fn rest_of(stored: &[Stored], current: Option<usize>, at: usize) -> &[u8]
    ensures { result.now ≡ left_of stored.now current at }
{
    match current {
        None => &[],
        Some(place) => match stored.get(place) {
            None => &[],
            Some(file) => match file.bytes.get(at..) {
                None => &[],
                Some(rest) => rest,
            },
        },
    }
}
