// The settings list: seven words of 32 bits a connection, the top four bits of each its kind. Which lists are right,
// and the settings of each connection.
#![tactic(auto)]

ghost use Rattle.std.specs.Prelude.{◌≡◌, map};
ghost use Rattle.settings.specs.Words.{kind_of, rest_of, is_ticks, is_words, has_kinds, has_ranges};
ghost use Rattle.settings.specs.Lists.{word_of, words_of, connection_at, settings_at, is_connection_at, is_new_at};
ghost use Rattle.settings.specs.Lists.{are_connections, is_list};

use endpoint::Settings;
use std::array;

// The most connections of a gateway.
const MOST_CONNECTIONS: usize = 64;

// A word is this times its kind, and the rest below it.
const KIND: u32 = 268435456;

fn is_ticks(v: u32) -> bool
    ensures { result ≡ is_ticks v }
{
    (1..=65535).contains(&v)
}

fn is_words(v: u32) -> bool
    ensures { result ≡ is_words v }
{
    (1..=25).contains(&v)
}

// The seven words of one connection.
#[derive(Clone, Copy)]
struct Words([u32; 7]);

impl Words {
    // Those of the connection i: settings_at gives each word past the end of the list as 0, so no whole chunk is taken.
    fn at(list: &[u32], i: u8) -> Words
        ensures { result.0 ≡ words_of list.now i }
    {
        let from = 7 * usize::from(i);
        Words(array::from_fn(|j| list.get(from + j).copied().unwrap_or(0)))
    }

    fn kinds(self) -> [u32; 7]
        ensures { result ≡ map kind_of (words_of self.0 0) }
    {
        self.0.map(|word| word / KIND)
    }

    fn rests(self) -> [u32; 7]
        ensures { result ≡ map rest_of (words_of self.0 0) }
    {
        self.0.map(|word| word % KIND)
    }

    // Kinds 1 to 7 in order. (Numbers: the list is C's.)
    fn has_kinds(self) -> bool
        ensures { result ≡ has_kinds (word_of self.0 0 0) (word_of self.0 0 1) (word_of self.0 0 2) (word_of self.0 0 3)
            (word_of self.0 0 4) (word_of self.0 0 5) (word_of self.0 0 6) }
    {
        self.kinds() == [1, 2, 3, 4, 5, 6, 7]
    }

    fn has_ranges(self) -> bool
        ensures { result ≡ has_ranges (rest_of (word_of self.0 0 0)) (rest_of (word_of self.0 0 1))
            (rest_of (word_of self.0 0 2)) (rest_of (word_of self.0 0 3)) (rest_of (word_of self.0 0 4))
            (rest_of (word_of self.0 0 5)) }
    {
        let [master, slave, role, interval, roundtrip, age, _] = self.rests();
        master < 65536
            && slave < 65536
            && master != slave
            && role < 2048
            && is_words(role / 32 % 32)
            && is_words(role % 32)
            && is_ticks(interval)
            && is_ticks(roundtrip)
            && is_ticks(age)
    }

    #[tactic(auto, unfolding(crate::specs::Lists::is_connection_at))]
    fn are_right(self) -> bool
        ensures { result ≡ is_connection_at self.0 0 }
    {
        self.has_kinds() && self.has_ranges()
    }

    // CID, of the master's and the slave's address.
    #[tactic(auto, unfolding(crate::specs::Lists::connection_at))]
    fn connection(self) -> u32
        ensures { result ≡ connection_at self.0 0 }
    {
        let [master, slave, ..] = self.rests();
        65536 * (master % 65536) + slave % 65536
    }

    #[tactic(auto, unfolding(crate::specs::Lists::settings_at, crate::specs::Lists::connection_at))]
    fn settings(self) -> Settings
        ensures { result ≡ settings_at self.0 0 }
    {
        let [_, _, role, interval, roundtrip, age, station] = self.rests();
        Settings {
            connection: self.connection(),
            slave: role / 1024 % 2 == 1,
            masterwords: (role / 32 % 32) as u8,
            slavewords: (role % 32) as u8,
            interval,
            roundtrip,
            age,
            station,
        }
    }
}

// The settings of the connection i of a list, counted from 0. (list and i stay two, here and below: this clause has both.)
#[tactic(auto, unfolding(crate::specs::Lists::settings_at))]
pub fn settings_at(list: &[u32], i: u8) -> Settings
    ensures { result ≡ settings_at list.now i }
{
    Words::at(list, i).settings()
}

// Whether the CID of the connection i is none of those before it: at most 63, and no heap for a set of them. (By fold: `all`
// leaves at the first that is the same, and a list of 64 took a fifth more steps for it.)
fn is_new(list: &[u32], i: u8) -> bool
    ensures { result ≡ is_new_at list.now i i }
{
    let own = Words::at(list, i).connection();
    (0..i).fold(true, |is, n| is & (Words::at(list, n).connection() != own))
}

// Whether the first n connections of a list are right.
fn are_connections(list: &[u32], n: u8) -> bool
    ensures { result ≡ are_connections list.now n }
{
    (0..n).all(|i| Words::at(list, i).are_right() && is_new(list, i))
}

// Whether a list is right: 1 to 64 connections of seven words each, and no CID twice.
#[tactic(auto, unfolding(crate::specs::Lists::is_list))]
pub fn is_list(list: &[u32]) -> bool
    ensures { result ≡ is_list list.now }
{
    let count = list.len() / 7;
    list.len() % 7 == 0
        && (1..=MOST_CONNECTIONS).contains(&count)
        && are_connections(list, count as u8)
}
