// A whole day's cards in one call: a lent list of cards, one long table for their rows, and a lent list for their replies.
#![tactic(auto)]

ghost use Rattle.std.specs.Prelude.{◌≡◌, length, map, OnOk};
ghost use Rattle.card.specs.Told.{number_told, told};
ghost use Rattle.day.specs.Day.{day_number, day_reply, day_table, day_replies};
ghost use Rattle.day.specs.Parts.{ClimbingDay};
ghost use Rattle.day.specs.Reckoning.{Fits, Step};
ghost use Rattle.day.specs.Told.{day_refusal_number};

use card::{Card, Numbered, in_numbers};
use card_list::AsCard;
use runoff::{ROW_WIDTH, fill_table};

// A day has no more cards than this.
pub const MOST_CARDS: usize = 64;

// How many numbers a card has in the reply list: its number, and its count of rows.
pub const REPLY_WIDTH: usize = 2;

// Why a day's cards are refused: more than 64 of them, or a reply list below two numbers a card.
#[derive(Clone, Copy, Debug, PartialEq, Eq)]
pub enum DayRefusal {
    ManyCards = 29,
    ShortReplies = 30,
}

impl Numbered for DayRefusal {
    ghost numbered = { day_refusal_number };

    fn number(self) -> u32 {
        self as u32
    }
}

// The reason to refuse so many cards with a reply list of so many numbers, where one is met.
#[tactic(auto, unfolding(crate::specs::Day::day_number))]
fn check_day(count: usize, room: usize) -> Result<(), DayRefusal>
    ensures { number_told day_refusal_number result ≡ day_number count room }
{
    if count > MOST_CARDS {
        return Err(DayRefusal::ManyCards);
    }
    let least = REPLY_WIDTH * count;
    if room < least {
        return Err(DayRefusal::ShortReplies);
    }
    Ok(())
}

// One card: it is given the table from `used` on, and its reply goes to its two places. Gives how many numbers of the table are used then.
fn fill_card(card: Card, i: usize, used: usize, table: &mut [i32], replies: &mut [u32]) -> usize
    requires { Fits i used table.old replies.old }
    ensures { Step card i used table.old replies.old result table.new replies.new }
{
    let (number, count) = in_numbers(fill_table(card, &mut table[used..]));
    let at = REPLY_WIDTH * i;
    let next = at + 1;
    replies[at] = number;
    replies[next] = count;
    used + ROW_WIDTH * (count as usize)
}

// Fills the lent table with the rows of a day's cards, each card's behind those of the cards before it, and the reply list with each card's
// number and count, two numbers a card as C lends it; or leaves both as they are and says why.
pub fn fill_day<C: AsCard>(
    cards: &[C],
    table: &mut [i32],
    replies: &mut [u32],
) -> Result<u32, DayRefusal>
    ensures value { told day_refusal_number result ≡ day_reply (length cards.now) (length replies.old) }
    ensures table_after { table.new ≡ day_table (map C.as_card cards.now) table.old replies.old }
    ensures replies_after { replies.new ≡ day_replies (map C.as_card cards.now) table.old replies.old }
    ensures climbing_day { OnOk result (ClimbingDay (map C.as_card cards.now) table.new replies.new) }
{
    check_day(cards.len(), replies.len())?;
    let mut used: usize = 0;
    for (i, entry) in cards.iter().enumerate() {
        used = fill_card(entry.card(), i, used, table, replies);
    }
    Ok(cards.len() as u32)
}
