//! Steps of a two-dimensional line, read from one window of bits: the fast way.
ghost use Rattle.std.specs.Prelude.{List, Bool, ◌+◌, ◌-◌, ◌<◌, ◌≤◌, ◌≡◌, ◌^◌, ◌/◌, ◌++◌, ◌⊎◌, length, take, drop, replicate, slice_index_or, IfSome, IsNone};
ghost use Rattle.fax_bits.specs.Bits.{word_bits};
ghost use Rattle.fax_bits.specs.Reading.{Place};
ghost use Rattle.fax_runcodes.specs.Rows.{Elements, other, colour_before};
ghost use Rattle.fax_runcodes.specs.Painted.{painted, colour_after_changes};
ghost use Rattle.fax_runcodes.specs.Spelling.{SpellsRun};
ghost use Rattle.fax_runcodes.specs.declared.Colour.{Colour};
ghost use Rattle.fax_mrcode.specs.declared.mode.Mode.{Mode};
ghost use Rattle.fax_mrcode.specs.Modes.{mode_word};
ghost use Rattle.fax_mrcode.specs.Starts.{IsBack, IsCursor, IsIndexOfB1, IsStartIn, Rests, StepsAt, TakesStep, TakesNear, StepsSoFar, left_of_a0, start_of};

use super::Start;
use super::ahead::{Ahead, ShortRuns, ones, past, short_runs};
use super::verticals::{VerticalWord, vertical_word};
use super::words::{HORIZONTAL_BITS, PASS_BITS};
use crate::places::place_at;
use fax_bits::BitReader;
use fax_runcodes::{Colour, RowBuilder};

/// How many bits a step in horizontal mode has at most where both of its runs are of fewer than 64
/// elements: the word of the mode, 8 for a white run and 12 for a black one (ITU-T T.4, tables 2/T.4 and
/// 4/T.4). Where fewer are left the next window is read first.
const SHORT_STEP_BITS: u32 = 23;

/// Where a coding step starts, and the bits from it on. The colour at a0 is that up to the changing
/// place of the index.
#[derive(Clone, Copy)]
pub(super) struct Near {
    /// The place right of a0: 0 for a0 = -1.
    from: u16,
    /// From where on b1 is looked for in the changing places of the reference.
    index: usize,
    /// The bits that are left to read.
    ahead: Ahead,
}

/// Where b1 is: its index in the changing places of the reference, or one past their end, and its place.
#[derive(Clone, Copy)]
struct NextChange {
    index: usize,
    place: u16,
}

/// Reads steps as far as one window shows them, and answers where the next one starts. It is the fast
/// way: what it leaves is read step by step. The line has its whole width from the start on, and each
/// step turns the elements right of a0.
#[inline]
pub(super) fn read_near_steps(
    line: &mut RowBuilder,
    reader: &mut BitReader,
    changes: &[u16],
    width: u16,
    start: Start,
) -> Start
    requires start { IsStartIn changes.now width line.old start }
    requires at { StepsAt changes.now width start.from }
    ensures next { IsStartIn changes.now width line.new result }
    ensures right { start.from ≤ result.from }
    ensures so_far { (old : Place)
        → StepsSoFar (painted Colour.White 0 changes.now width) width old reader.old
        (left_of_a0 line.old start) start → StepsSoFar (painted Colour.White 0 changes.now width)
        width old reader.new (left_of_a0 line.new result) result }
{
    let known = reader.known();
    let first = Near {
        from: start.from,
        index: start.index,
        ahead: Ahead {
            window: reader.window() << 8,
            left: known,
        },
    };
    let mut near = near_start(line, changes, width, first);
    while near.from <= width {
        let Some(next) = near_step(line, changes, width, near) else {
            break;
        };
        near = next;
    }
    reader.skip(known - near.ahead.left);
    Start {
        from: near.from,
        colour: Colour::after_changes(near.index),
        index: near.index,
    }
}

/// Takes the steps with a1 at b1 that a window begins with, where it shows eight of them or more, all at
/// once. Fewer are taken one by one.
#[inline]
fn near_start(line: &mut RowBuilder, changes: &[u16], width: u16, near: Near) -> Near
    requires start { IsStartIn changes.now width line.old (start_of near) }
    requires at { StepsAt changes.now width near.from }
    requires known { near.ahead.left ≤ 56 }
    ensures next { IsStartIn changes.now width line.new (start_of result) }
    ensures taken { (line.new ≡ line.old)
        × (result ≡ near) ⊎ TakesNear (painted Colour.White 0 changes.now width)
        width line.old near line.new result }
{
    if near.ahead.window >> 56 == 0xff && near.ahead.left >= 8 {
        near_zeros(line, changes, width, near)
    } else {
        near
    }
}

/// Takes the step that the bits begin with, where they show all of it and its runs are short. `None`
/// changes nothing.
#[inline]
fn near_step(line: &mut RowBuilder, changes: &[u16], width: u16, near: Near) -> Option<Near>
    requires start { IsStartIn changes.now width line.old (start_of near) }
    requires at { StepsAt changes.now width near.from }
    requires known { near.ahead.left ≤ 56 }
    ensures next { IfSome result (λ next. IsStartIn changes.now width line.new (start_of next)) }
    ensures taken { IfSome result (λ next.
        TakesNear (painted Colour.White 0 changes.now width) width line.old near line.new next) }
    ensures none { IsNone result → line.new ≡ line.old }
{
    let word = vertical_word(near.ahead.window);
    if word.bits > 0 {
        return near_vertical(line, changes, width, near, word);
    }
    match near.ahead.window >> 60 {
        0b0001 => near_pass(changes, width, near),
        0b0010 | 0b0011 => near_horizontal(line, changes, width, near),
        _ => None,
    }
}

/// Takes the steps with a1 at b1 that the bits begin with, whose words are a 1 each: the first, and
/// those after it as far as the reference has changing places for them.
#[inline]
fn near_zeros(line: &mut RowBuilder, changes: &[u16], width: u16, near: Near) -> Near
    requires start { IsStartIn changes.now width line.old (start_of near) }
    requires at { StepsAt changes.now width near.from }
    requires known { near.ahead.left ≤ 56 }
    requires some { 0 < near.ahead.left }
    requires zero { near.ahead.window / 2 ^ 63 ≡ 1 }
    ensures next { IsStartIn changes.now width line.new (start_of result) }
    ensures taken { TakesNear (painted Colour.White 0 changes.now width)
        width line.old near line.new result }
{
    let b1 = next_change(changes, width, near);
    if near.from > 0 {
        let steps = (ones(near.ahead) as usize).min(changes.len().saturating_sub(b1.index));
        if steps > 0 {
            let index = b1.index + steps;
            line.turn_at_all(&changes[b1.index..index]);
            return Near {
                from: changes[index - 1] + 1,
                index,
                ahead: past(near.ahead, steps as u32),
            };
        }
    }
    turn_below(line, width, b1.place);
    Near {
        from: b1.place + 1,
        index: b1.index + 1,
        ahead: past(near.ahead, 1),
    }
}

/// Takes the step in vertical mode of a word that the bits begin with, where they show all of it.
/// `None` changes nothing.
#[inline]
fn near_vertical(
    line: &mut RowBuilder,
    changes: &[u16],
    width: u16,
    near: Near,
    word: VerticalWord,
) -> Option<Near>
    requires start { IsStartIn changes.now width line.old (start_of near) }
    requires at { StepsAt changes.now width near.from }
    requires known { near.ahead.left ≤ 56 }
    requires size { length (mode_word (Mode.Vertical word.offset)) ≡ word.bits }
    requires begins { (rest : List Bool)
        × (word_bits 64 near.ahead.window ≡ mode_word (Mode.Vertical word.offset) ++ rest) }
    requires back { IsBack word.offset word.back }
    ensures next { IfSome result (λ next. IsStartIn changes.now width line.new (start_of next)) }
    ensures taken { IfSome result (λ next.
        TakesNear (painted Colour.White 0 changes.now width) width line.old near line.new next) }
    ensures none { IsNone result → line.new ≡ line.old }
{
    let bits = u32::from(word.bits);
    if bits > near.ahead.left {
        return None;
    }
    let b1 = next_change(changes, width, near);
    // two past the last changing place none stands after: such a step is taken the slow way
    if b1.index > changes.len() {
        return None;
    }
    let past_a1 = b1.place + word.offset.right_of_left3();
    if past_a1 < near.from + 3 || past_a1 > width + 3 {
        return None;
    }
    let a1 = past_a1 - 3;
    turn_below(line, width, a1);
    Some(Near {
        from: a1 + 1,
        index: index_after(b1.index, word.back),
        ahead: past(near.ahead, bits),
    })
}

/// From where on the next b1 is looked for: after this one, or so many changing places further back, as
/// the changing place before b1 may be right of a1. Before the first none is.
#[inline]
fn index_after(b1: usize, back: u16) -> usize
    requires { b1 + 1 < 2 ^ 64 }
    ensures { (result + back ≡ b1 + 1) ⊎ ((b1 + 1 < back) × (result ≡ 1)) }
{
    let next = b1 + 1;
    let back = usize::from(back);
    if next < back { 1 } else { next - back }
}

/// Takes the step in pass mode, whose word the bits begin with, where they show all of it. No element
/// turns.
#[inline]
fn near_pass(changes: &[u16], width: u16, near: Near) -> Option<Near>
    requires cursor { IsCursor changes.now (colour_after_changes near.index) near.from near.index }
    requires at { StepsAt changes.now width near.from }
    requires known { near.ahead.left ≤ 56 }
    requires word { near.ahead.window / 2 ^ 60 ≡ 1 }
    ensures next { IfSome result
        (λ next. (line : Elements) → IsStartIn changes.now width line (start_of near)
        → IsStartIn changes.now width line (start_of next)) }
    ensures taken { IfSome result
        (λ next. (line : Elements) → IsStartIn changes.now width line (start_of near)
        → TakesNear (painted Colour.White 0 changes.now width) width line near line next) }
{
    if near.ahead.left < PASS_BITS {
        return None;
    }
    let b1 = next_change(changes, width, near);
    let b2 = place_at(changes, b1.index + 1, width);
    if b2 == width {
        return None;
    }
    Some(Near {
        from: b2 + 1,
        index: b1.index + 2,
        ahead: past(near.ahead, PASS_BITS),
    })
}

/// Takes the step in horizontal mode, whose word the bits begin with, where they show all of it and its
/// runs are short. `None` changes nothing.
#[inline]
fn near_horizontal(line: &mut RowBuilder, changes: &[u16], width: u16, near: Near) -> Option<Near>
    requires start { IsStartIn changes.now width line.old (start_of near) }
    requires at { StepsAt changes.now width near.from }
    requires known { near.ahead.left ≤ 56 }
    requires word { near.ahead.window / 2 ^ 61 ≡ 1 }
    ensures next { IfSome result (λ next. IsStartIn changes.now width line.new (start_of next)) }
    ensures taken { IfSome result (λ next.
        TakesNear (painted Colour.White 0 changes.now width) width line.old near line.new next) }
    ensures none { IsNone result → line.new ≡ line.old }
{
    if near.ahead.left < SHORT_STEP_BITS {
        return None;
    }
    let after = past(near.ahead, HORIZONTAL_BITS);
    let Some(runs) = short_runs(after, Colour::after_changes(near.index)) else {
        return None;
    };
    turn_at_runs(line, changes, width, near, runs)
}

/// Turns the elements at a1 and a2, where a step may have these runs from a0 to a1 and from a1 to a2.
/// `None` changes nothing.
#[inline]
fn turn_at_runs(
    line: &mut RowBuilder,
    changes: &[u16],
    width: u16,
    near: Near,
    runs: ShortRuns,
) -> Option<Near>
    requires start { IsStartIn changes.now width line.old (start_of near) }
    requires at { StepsAt changes.now width near.from }
    requires first { runs.first < 64 }
    requires second { runs.second < 64 }
    ensures next { IfSome result (λ next. IsStartIn changes.now width line.new (start_of next)) }
    ensures taken { IfSome result
        (λ next. (s t : List Bool) → SpellsRun (colour_after_changes near.index) s runs.first
        → SpellsRun (other (colour_after_changes near.index)) t runs.second
        → TakesStep (painted Colour.White 0 changes.now width) width Mode.Horizontal (s
        ++ t) (left_of_a0 line.old (start_of near))
        (start_of near) (left_of_a0 line.new (start_of next)) (start_of next)) }
    ensures ahead { IfSome result (λ next. next.ahead ≡ runs.ahead) }
    ensures none { IsNone result → line.new ≡ line.old }
{
    let a1 = near.from.saturating_sub(1) + runs.first;
    let a2 = a1 + runs.second;
    if a2 > width {
        return None;
    }
    if runs.first == 0 && near.from > 0 {
        return None;
    }
    if runs.second == 0 && a1 < width {
        return None;
    }
    turn_below(line, width, a1);
    turn_below(line, width, a2);
    Some(Near {
        from: a2 + 1,
        index: near.index,
        ahead: runs.ahead,
    })
}

/// Where b1 is.
#[inline]
fn next_change(changes: &[u16], width: u16, near: Near) -> NextChange
    requires { IsCursor changes.now (colour_after_changes near.index) near.from near.index }
    ensures b1 { IsIndexOfB1 changes.now (colour_after_changes near.index) near.from result.index }
    ensures place { result.place ≡ slice_index_or changes.now result.index width }
{
    let mut index = near.index;
    while index < changes.len() {
        let place = changes[index];
        if place >= near.from {
            return NextChange { index, place };
        }
        index += 2;
    }
    NextChange {
        index,
        place: width,
    }
}

/// Gives the elements from a place on the other colour, where there are any.
#[inline]
fn turn_below(line: &mut RowBuilder, width: u16, place: u16)
    requires wide { length line.old ≡ width }
    requires within { place ≤ width }
    requires same { drop place line.old ≡ replicate (width - place) (colour_before line.old place) }
    ensures left { take place line.new ≡ take place line.old }
    ensures right { Rests width line.new place (other (colour_before line.old place)) }
{
    if place < width {
        line.turn(place);
    }
}
