//! Marks that are taken out of a list, and put back.
ghost use Rattle.std.specs.Prelude.{◌≡◌, ◌+◌, ◌<◌, ◌≤◌, [], length, map, filter, not, vec_len, vec_capacity};
ghost use Rattle.map_edits.specs.Marks.{is_mark};
ghost use Rattle.map_marks.specs.Views.{mark_of};
ghost use Rattle.map_marks.specs.Taken.{mark_at, given_back};

use crate::mark::Mark;
use map_nums::Value;
use map_words::Name;

/// A mark that was taken out, and the place at which it stood: counted from 0, before it was taken out.
#[derive(Drop)]
pub struct Taken {
    pub place: usize,
    pub mark: Mark,
}

/// Takes out what stands for a value of a layer, from the last place on. There is room for what is taken out.
pub fn take_out(marks: &mut Vec<Mark>, name: &Name, value: Value, taken: &mut Vec<Taken>)
    requires none { taken.old.items ≡ [] }
    requires room { vec_len marks.old ≤ vec_capacity taken.old + length (filter (λ m. not (is_mark name.now value m)) (map mark_of marks.old.items)) }
    ensures left { map mark_of marks.new.items ≡ filter (λ m. not (is_mark name.now value m)) (map mark_of marks.old.items) }
    ensures back { given_back (map mark_of marks.new.items) taken.new.items ≡ map mark_of marks.old.items }
    ensures capacity { vec_capacity marks.new ≡ vec_capacity marks.old }
    ensures len { vec_len marks.new ≤ vec_len marks.old }
{
    let mut place = marks.len();
    while 0 < place {
        place -= 1;
        if marks[place].is(name, value) {
            let mark = marks.remove(place);
            taken.push_reserved(Taken { place, mark });
        }
    }
}

/// Puts marks back that were taken out one after another, the last first. There is room for them.
pub fn put_back(marks: &mut Vec<Mark>, mut taken: Vec<Taken>)
    requires room { vec_len marks.old + vec_len taken ≤ vec_capacity marks.old }
    ensures { map mark_of marks.new.items ≡ given_back (map mark_of marks.old.items) taken.items }
{
    while let Some(Taken { place, mark }) = taken.pop() {
        put_at(marks, place, mark);
    }
}

/// Puts a mark in at a place, or after all where there are fewer. There is room for it.
pub fn put_at(marks: &mut Vec<Mark>, place: usize, mark: Mark)
    requires room { vec_len marks.old < vec_capacity marks.old }
    ensures items { map mark_of marks.new.items ≡ mark_at (map mark_of marks.old.items) place (mark_of mark) }
    ensures len { vec_len marks.new ≡ vec_len marks.old + 1 }
    ensures capacity { vec_capacity marks.new ≡ vec_capacity marks.old }
{
    let place = place.min(marks.len());
    match marks.insert(place, mark) {
        Ok(()) => {}
        Err(_) => {}
    }
}
