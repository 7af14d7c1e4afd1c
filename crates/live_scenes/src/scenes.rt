//! Runs stories with all tokens of an access point.

ghost use Rattle.std.specs.Prelude.{◌≡◌, ◌<◌, ◌≤◌, length};
ghost use Rattle.std.specs.List.{All};
ghost use Rattle.ap_live.specs.Opening.{parts_in_all};
ghost use Rattle.ap_live.specs.Tokens.{AreLeft};
ghost use Rattle.ap_shards.specs.Opening.{AreNamed};
ghost use Rattle.live_scenes.specs.Rights.{IsChiefBoxed, IsHandBoxed};

use crate::crew::{Crew, chiefs_of, deal, hands_of};
use crate::hands::{Chief, Hand};
use crate::purse::{PARTS, Purse, total};
use ap_books::{Ledgers, Totals};
use ap_live::{Gate, LiveAp, Opened, Settings, Tagged};
use ap_locked::Journals;
use ap_shards::NewShards;
use std::alloc::{AllocError, Global};
use std::marker::Brand;
use std::sync::Wait;
use std::thread;
use std::thread::Threads;
use versions::Publisher;

/// The most users of an access point at once: 8 workers, 8 operators and the publisher.
const MOST: usize = 17;

/// The workers of an access point, in the order of their numbers, operators of it, and the publisher of its programs.
#[derive(Drop)]
pub struct Scene<'a, B: Ledgers + Journals> {
    pub hands: Vec<Hand<'a, B>>,
    pub chiefs: Vec<Chief<'a, B>>,
    pub publisher: &'a mut Publisher,
}

impl<'a, B: Ledgers + Journals> Scene<'a, B> {
    /// One after another, each worker serves its queue. Returns what was served: if an allocation fails, of that worker
    /// what it served until then.
    pub fn serve<R: Wait, G: Gate>(&mut self, rt: &R, alloc: Global, gate: &G) -> Vec<Tagged> {
        let mut list = Vec::new(alloc);
        for hand in self.hands.iter_mut() {
            let _ = hand.serve(rt, alloc, gate, &mut list);
        }
        list
    }
}

/// What is done with an access point: first by one thread with all its users, then by all users at once, each in its
/// own thread, and last by one thread again.
pub trait Story<R: Wait> {
    /// Runs first.
    fn prepare<B: Ledgers + Journals>(&mut self, rt: &R, alloc: Global, scene: &mut Scene<'_, B>);

    /// What each worker does.
    fn work<B: Ledgers + Journals>(&self, _rt: &R, _alloc: Global, _hand: &mut Hand<'_, B>) {}

    /// What each operator does.
    fn operate<B: Ledgers + Journals>(&self, _rt: &R, _alloc: Global, _chief: &mut Chief<'_, B>) {}

    /// What the publisher does.
    fn publish(&self, _rt: &R, _alloc: Global, _publisher: &mut Publisher) {}

    /// Runs last.
    fn finish<B: Ledgers + Journals>(&mut self, _rt: &R, _scene: &mut Scene<'_, B>) {}
}

/// A user of an access point.
#[derive(Drop)]
enum Player<'x, 'a, B: Ledgers + Journals> {
    Hand(&'x mut Hand<'a, B>),
    Chief(&'x mut Chief<'a, B>),
    Publisher(&'x mut Publisher),
}

/// All workers, operators, and the publisher.
fn scene_of<'a, B: Ledgers + Journals>(
    alloc: Global,
    ap: &'a LiveAp<B>,
    crew: Crew<B>,
    publisher: &'a mut Publisher,
) -> Result<Scene<'a, B>, AllocError>
    requires hands { All (IsHandBoxed ap.now) crew.workers.items }
    requires chiefs { All (IsChiefBoxed ap.now) crew.operators.items }
{
    let Crew { workers, operators } = crew;
    let Ok(hands) = hands_of(alloc, ap, workers) else {
        drop(operators);
        return Err(AllocError);
    };
    let Ok(chiefs) = chiefs_of(alloc, ap, operators) else {
        drop(hands);
        return Err(AllocError);
    };
    Ok(Scene {
        hands,
        chiefs,
        publisher,
    })
}

/// Takes back the parts of workers.
fn take_hands<B: Ledgers + Journals>(purse: &mut Purse<B>, hands: Vec<Hand<'_, B>>) {
    for hand in hands {
        hand.give_back(purse);
    }
}

/// Takes back the parts of operators.
fn take_chiefs<B: Ledgers + Journals>(purse: &mut Purse<B>, chiefs: Vec<Chief<'_, B>>) {
    for chief in chiefs {
        chief.give_back(purse);
    }
}

/// Takes back all parts, and reads the totals.
fn totals_of<B: Ledgers + Journals, R: Wait>(
    rt: &R,
    ap: &LiveAp<B>,
    scene: Scene<'_, B>,
    purse: Purse<B>,
) -> Option<Totals>
    requires { B.shares ≡ 17 }
{
    let mut purse = purse;
    let Scene { hands, chiefs, .. } = scene;
    take_hands(&mut purse, hands);
    take_chiefs(&mut purse, chiefs);
    let totals = total(rt, ap, &mut purse);
    drop(purse);
    totals
}

/// Workers, operators and the publisher, each in a slot from which its thread takes it.
fn players_of<'x, 'a, B: Ledgers + Journals>(
    alloc: Global,
    scene: &'x mut Scene<'a, B>,
) -> Result<Vec<Option<Player<'x, 'a, B>>>, AllocError> {
    let Scene {
        hands,
        chiefs,
        publisher,
    } = scene;
    let mut players = Vec::new(alloc);
    let hands = hands.iter_mut();
    for hand in hands {
        players.push(Some(Player::Hand(hand)))?;
    }
    let chiefs = chiefs.iter_mut();
    for chief in chiefs {
        players.push(Some(Player::Chief(chief)))?;
    }
    players.push(Some(Player::Publisher(&mut **publisher)))?;
    Ok(players)
}

fn play_part<B: Ledgers + Journals, R: Wait, S: Story<R>>(
    rt: &R,
    alloc: Global,
    player: Player<'_, '_, B>,
    story: &S,
) {
    match player {
        Player::Hand(hand) => story.work(rt, alloc, hand),
        Player::Chief(chief) => story.operate(rt, alloc, chief),
        Player::Publisher(publisher) => story.publish(rt, alloc, publisher),
    }
}

/// All users do their parts at once, each in its own thread.
fn run_all<B, R, S>(rt: &R, alloc: Global, players: &mut [Option<Player<'_, '_, B>>], story: &S)
where
    B: Ledgers + Journals + Send + Sync,
    R: Threads + Wait + Sync,
    S: Story<R> + Sync,
{
    thread::for_each_mut(
        rt,
        players,
        MOST,
        &|_place, slot| {
            if let Some(player) = slot.take() {
                play_part(rt, alloc, player, story);
            }
        },
    );
}

/// Each token's user does its part of a story, in a thread of its own. False if an allocation fails.
fn play_all<B, R, S>(rt: &R, alloc: Global, scene: &mut Scene<'_, B>, story: &S) -> bool
where
    B: Ledgers + Journals + Send + Sync,
    R: Threads + Wait + Sync,
    S: Story<R> + Sync,
{
    let Ok(mut players) = players_of(alloc, scene) else {
        return false;
    };
    run_all(rt, alloc, players.as_mut_slice(), story);
    true
}

/// What a story does before its threads begin. A function of its own, as `finish`, since the borrow checker covers no
/// function that makes both calls.
fn prepare<B, R, S>(rt: &R, alloc: Global, scene: &mut Scene<'_, B>, story: &mut S)
where
    B: Ledgers + Journals,
    R: Wait,
    S: Story<R>,
{
    story.prepare(rt, alloc, scene);
}

/// What a story does once its threads have ended.
fn finish<B: Ledgers + Journals, R: Wait, S: Story<R>>(
    rt: &R,
    scene: &mut Scene<'_, B>,
    story: &mut S,
) {
    story.finish(rt, scene);
}

/// Runs a story to its end. False if an allocation fails.
fn tell<B, R, S>(rt: &R, alloc: Global, scene: &mut Scene<'_, B>, story: &mut S) -> bool
where
    B: Ledgers + Journals + Send + Sync,
    R: Threads + Wait + Sync,
    S: Story<R> + Sync,
{
    prepare(rt, alloc, scene, story);
    if !play_all(rt, alloc, scene, &*story) {
        return false;
    }
    finish(rt, scene, story);
    true
}

/// Runs a story with all tokens, and reads the totals.
fn told<B: Ledgers + Journals + Send + Sync, R: Threads + Wait + Sync, S: Story<R> + Sync>(
    rt: &R,
    alloc: Global,
    ap: &LiveAp<B>,
    tokens: (Crew<B>, Purse<B>),
    publisher: &mut Publisher,
    story: &mut S,
) -> Option<Totals>
    requires hands { All (IsHandBoxed ap.now) tokens.0.workers.items }
    requires chiefs { All (IsChiefBoxed ap.now) tokens.0.operators.items }
    requires shares { B.shares ≡ 17 }
{
    let (crew, purse) = tokens;
    let Ok(mut scene) = scene_of(alloc, ap, crew, publisher) else {
        drop(purse);
        return None;
    };
    let told = tell(rt, alloc, &mut scene, story);
    let totals = totals_of(rt, ap, scene, purse);
    if told { totals } else { None }
}

/// Gives out all tokens of workers and `many.1` of operators, and runs the story with them.
fn opened_to<B: Ledgers + Journals + Send + Sync, R: Threads + Wait + Sync, S: Story<R> + Sync>(
    rt: &R,
    alloc: Global,
    opened: Opened<B>,
    many: (usize, usize),
    story: &mut S,
) -> Option<Totals>
    requires left { AreLeft opened.ap opened.left }
    requires all { length opened.ap.queues ≡ many.0 }
    requires parts { opened.left.parts ≡ parts_in_all }
    requires few { many.0 ≤ 8 }
    requires few_operators { many.1 ≤ 8 }
    requires shares { B.shares ≡ 17 }
{
    let Opened {
        mut ap,
        mut publisher,
        left,
    } = opened;
    let totals = match deal(&mut ap, alloc, left, many) {
        Ok(tokens) => told(rt, alloc, &ap, tokens, &mut publisher, story),
        Err(_) => None,
    };
    // Freed by a call, since eight shards have many parts.
    drop(ap);
    publisher.close(rt);
    totals
}

/// Opens an access point with new shards, and runs the story with it.
fn play_with<B: Ledgers + Journals + Send + Sync, R: Threads + Wait + Sync, S: Story<R> + Sync>(
    rt: &R,
    alloc: Global,
    settings: Settings,
    new: NewShards,
    operators: usize,
    story: &mut S,
) -> Option<Totals>
    requires some { 0 < settings.workers }
    requires few { settings.workers ≤ 8 }
    requires few_operators { operators ≤ 8 }
    requires named { AreNamed B.name_of B.shares B.journal_of new }
    requires config { settings.link ≡ B.config }
    requires shares { B.shares ≡ parts_in_all }
{
    let workers = settings.workers as usize;
    let Ok(opened) = LiveAp::<B>::open(rt, alloc, settings, new) else {
        return None;
    };
    opened_to(rt, alloc, opened, (workers, operators), story)
}

/// Opens an access point, gives the tokens of all its workers and of `operators` operators to a story, and then returns
/// the totals. None if an allocation fails, if there is no worker, and for more than 8 workers or operators.
pub fn play<R: Threads + Wait + Sync, S: Story<R> + Sync>(
    rt: &R,
    alloc: Global,
    settings: Settings,
    operators: usize,
    story: &mut S,
) -> Option<Totals> {
    if settings.workers == 0 || settings.workers > 8 || operators > 8 {
        return None;
    }
    play_with::<Brand, R, S>(rt, alloc, settings, NewShards::new(PARTS), operators, story)
}
