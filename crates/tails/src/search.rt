// Searching the list by bisecting.
ghost use Rattle.std.specs.Prelude.{◌≡◌, true, ◌≤◌, ◌<◌, length};
ghost use Rattle.tails.specs.Tails.{below, sorted, all_slots, find_in};

pub fn index(b: u8) -> usize
    ensures { result ≡ b }
{
    b as usize
}

pub fn byte(i: usize) -> u8
    requires { i < 256 }
    ensures { result ≡ i }
{
    i as u8
}

// How many slots of a list come before a key.
#[tactic(auto, using(crate::proofs::Bisect::middle))]
pub fn place_of(keys: &[u64], list: &[u8], key: u64) -> usize
    requires keys_len_bound { (length keys.now ≤ 64) × (length list.now ≤ 64) }
    requires list_value { all_slots (length keys.now) list.now ≡ true }
    requires list_value_2 { sorted keys.now list.now ≡ true }
    ensures { result ≡ below keys.now key list.now }
{
    let mut low = 0;
    let mut high = list.len();
    while low < high {
        let middle = (low + high) / 2;
        if keys[index(list[middle])] < key {
            low = middle + 1;
        } else {
            high = middle;
        }
    }
    low
}

// The slot of a key, by how many come before it.
#[tactic(auto, using(crate::proofs::Bisect::middle), unfolding(crate::specs::Tails::find_in))]
pub fn slot_at(keys: &[u64], list: &[u8], key: u64, at: usize) -> Option<u8>
    requires keys_len_bound { (length keys.now ≤ 64) × (length list.now ≤ 64) }
    requires list_value { all_slots (length keys.now) list.now ≡ true }
    requires at_value { at ≡ below keys.now key list.now }
    ensures { result ≡ find_in keys.now key list.now }
{
    if list.len() <= at {
        return None;
    }
    let slot = list[at];
    if keys[index(slot)] == key {
        Some(slot)
    } else {
        None
    }
}
