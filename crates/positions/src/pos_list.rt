// Which of a period's n candidates BYSETPOS keeps, by their places alone. A place counts from 0, a position from 1.
ghost use Rattle.std.specs.Prelude.{◌≡◌, ◌+◌, ◌-◌, ◌≤◌, ◌<◌, length};
ghost use Rattle.std.proofs.lemmas.List.Edits.{sets};
ghost use Rattle.rule.specs.Candidates.{chooses};
ghost use Rattle.positions.specs.Places.{kept_places, kept_within, over};

// Whether BYSETPOS chooses a place of n: forward, position p has slot 365 + p; from the end, it has slot 366 - p.
fn is_chosen(bysetpos: &[bool; 732], n: u32, place: u32) -> bool
    requires { place < n }
    ensures { result ≡ chooses bysetpos.now n place }
{
    let behind = n - place;
    let forward = place < 366 && bysetpos[366 + (place as usize)];
    let from_end = behind <= 366 && bysetpos[366 - (behind as usize)];
    forward | from_end
}

// Writes the chosen places of from..to, of n in all, from slot count on; how many slots are written then. Slots with a count beside them: no heap.
fn put_chosen(
    bysetpos: &[bool; 732],
    n: u32,
    from: u32,
    to: u32,
    count: usize,
    places: &mut [u32; 732],
) -> usize
    requires { (to ≤ n) × (count + (to - from) ≤ 732) }
    ensures value { result ≡ count + length (kept_within bysetpos.now n from to) }
    ensures places_after { places.new ≡ sets places.old count (kept_within bysetpos.now n from to) }
{
    let mut written = count;
    for place in from..to {
        if !is_chosen(bysetpos, n, place) {
            continue;
        }
        places[written] = place;
        written += 1;
    }
    written
}

// The places of the kept candidates of n, rising, from the buffer's first slot on; how many there are. Behind place 365 only positions from
// the end choose, and they reach back no further than 366 places, so that at most 732 places are looked at.
// Slots with a count beside them: no heap.
pub fn build_pos_list(bysetpos: &[bool; 732], n: u32, places: &mut [u32; 732]) -> usize
    ensures value { result ≡ length (kept_places bysetpos.now n) }
    ensures places_after { places.new ≡ over (kept_places bysetpos.now n) places.old }
{
    if n <= 366 {
        return put_chosen(bysetpos, n, 0, n, 0, places);
    }
    let count = put_chosen(bysetpos, n, 0, 366, 0, places);
    put_chosen(bysetpos, n, (n - 366).max(366), n, count, places)
}
