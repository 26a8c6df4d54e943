// The card list: thirteen signed numbers a curve, as the book is read into it; the card and the name's place of a curve.
#![tactic(auto)]

ghost use Rattle.std.specs.Prelude.{◌≡◌, ◌<◌};
ghost use Rattle.card.specs.declared.Card.{Card};
ghost use Rattle.card_list.specs.List.{number_of, counted, datum_from, card_from, card_of, card_in, name_place_of, name_place_in};

use card::{Card, Datum};

// How many numbers a curve has in a list.
pub const CURVE_WIDTH: usize = 13;

// Where the name of a curve stands in the text of the book, and how many bytes it has.
#[derive(Clone, Copy)]
pub struct NamePlace {
    pub place: u32,
    pub size: u32,
}

// A number of the list, and 0 past its end, as the definition reads it: no Option, which each of its callers would turn into 0.
fn number_at(list: &[i32], place: usize) -> i32
    ensures { result ≡ number_of list.now place }
{
    list.get(place).copied().unwrap_or(0)
}

// One of the card's eight numbers at a place of the list; below 0 it counts as the greatest, which every reason refuses.
fn count_at(list: &[i32], place: usize) -> u32
    ensures { result ≡ counted (number_of list.now place) }
{
    u32::try_from(number_at(list, place)).unwrap_or(u32::MAX)
}

// What the heights of a card count from, by the mark, a number as C lends it, the height and the grade from a place on: relative where the
// mark is 0.
#[tactic(auto, unfolding(crate::specs::List::datum_from))]
fn datum_at(list: &[i32], at: usize) -> Datum
    requires { at < 70000000000 }
    ensures { result ≡ datum_from list.now at }
{
    let mark = number_at(list, at);
    if mark == 0 {
        return Datum::Relative;
    }
    let height = number_at(list, at + 1);
    let grade = number_at(list, at + 2);
    Datum::Absolute { height, grade }
}

// The card whose eleven numbers stand in a list from a place on.
#[tactic(auto, unfolding(crate::specs::List::card_from))]
fn card_from(list: &[i32], at: usize) -> Card
    requires { at < 60000000000 }
    ensures { result ≡ card_from list.now at }
{
    let datum = datum_at(list, at + 8);
    Card {
        profile: count_at(list, at),
        terrain: count_at(list, at + 1),
        radius: count_at(list, at + 2),
        clothoid: count_at(list, at + 3),
        full_slope: count_at(list, at + 4),
        full_widening: count_at(list, at + 5),
        step: count_at(list, at + 6),
        unit: count_at(list, at + 7),
        datum,
    }
}

// What stands for a card in a list of cards.
pub trait AsCard: Copy {
    ghost as_card: { Self → Card };

    fn card(self) -> Card
        ensures { result ≡ as_card self };
}

impl AsCard for Card {
    ghost as_card = { λ card. card };

    fn card(self) -> Card {
        self
    }
}

// A card's eleven numbers.
impl AsCard for [i32; 11] {
    ghost as_card = { card_of };

    fn card(self) -> Card {
        card_of_numbers(&self)
    }
}

// The card with these eleven numbers: the eight in the order of the paper, the mark, height and grade.
pub fn card_of_numbers(numbers: &[i32; 11]) -> Card
    ensures { result ≡ card_of numbers.now }
{
    card_from(numbers, 0)
}

// The card of a curve in the list, counted from 0: the eleven numbers after the place and the size of its name.
pub fn card_of_curve(list: &[i32], curve: u32) -> Card
    ensures { result ≡ card_in list.now curve }
{
    card_from(list, CURVE_WIDTH * (curve as usize) + 2)
}

// A name's place and size; none of its bytes where one of the two is below 0, and not None: a call that could not fail still cannot.
fn name_place(place: i32, size: i32) -> NamePlace
    ensures { result ≡ name_place_of place size }
{
    match (u32::try_from(place), u32::try_from(size)) {
        (Ok(place), Ok(size)) => NamePlace { place, size },
        _ => NamePlace { place: 0, size: 0 },
    }
}

// Where the name of a curve in the list, counted from 0, stands in the text.
#[tactic(auto, unfolding(crate::specs::List::name_place_in))]
pub fn name_of_curve(list: &[i32], curve: u32) -> NamePlace
    ensures { result ≡ name_place_in list.now curve }
{
    let at = CURVE_WIDTH * (curve as usize);
    name_place(number_at(list, at), number_at(list, at + 1))
}
