// Random lists of effects, which the stacks and the plain values take or refuse alike.
use crate::dice::Dice;
use crate::draw::{effect, name, step};
use crate::given::path;
use crate::lines::{empty, refusal};
use crate::same::is_same;
use crate::world::World;
use std::alloc::Global;
use std::test::Fail;
use wse_element::Effect;
use wse_stacks::Stacks;

// Draws one more step into the list, and answers whether the plain values take it.
fn draw(
    alloc: Global,
    list: &mut Vec<Effect>,
    after: &mut World,
    dice: &mut Dice,
) -> Result<bool, Fail> {
    let step = step(alloc, after, dice)?;
    list.push(effect(alloc, &step)?)?;
    after.take(alloc, &step)
}

// Draws up to three steps, until one is refused, and answers the index of that one.
fn draw_list(
    alloc: Global,
    list: &mut Vec<Effect>,
    after: &mut World,
    dice: &mut Dice,
) -> Result<Option<usize>, Fail> {
    for _ in 0..dice.roll(3).wrapping_add(1) {
        let at = list.len();
        if !draw(alloc, list, after, dice)? {
            return Ok(Some(at));
        }
    }
    Ok(None)
}

fn turns(stacks: &Stacks, alloc: Global) -> Result<Vec<u64>, Fail> {
    let mut all = Vec::new(alloc);
    for file in 0u8..3 {
        all.push(stacks.turns(&path(alloc, name(file))?))?;
    }
    Ok(all)
}

// The same numbers, each one greater where the path's history looks otherwise in the second.
fn turned(turns: &[u64], alloc: Global, world: &World, after: &World) -> Result<Vec<u64>, Fail> {
    let mut all = Vec::new(alloc);
    let mut file = 0u8;
    for count in turns {
        let is_alike = world.is_alike(after, alloc, file)?;
        all.push(count.wrapping_add(!is_alike as u64))?;
        file = file.wrapping_add(1);
    }
    Ok(all)
}

/// The stacks, the plain values, and how many lists both took.
#[derive(Drop)]
struct Run {
    stacks: Stacks,
    world: World,
    done: u64,
}

impl Run {
    // Whether the list left of the stacks what these plain values and turns tell.
    fn holds(&self, alloc: Global, expected: &[u64]) -> Result<bool, Fail> {
        Ok(
            turns(&self.stacks, alloc)?.as_slice() == expected
                && is_same(&self.stacks, alloc, &self.world, self.done)?,
        )
    }

    // A list that is taken.
    fn take(&mut self, alloc: Global, list: Vec<Effect>, after: World) -> Result<bool, Fail> {
        let before = turns(&self.stacks, alloc)?;
        let expected = turned(before.as_slice(), alloc, &self.world, &after)?;
        if refusal(&mut self.stacks, alloc, list)?.is_some() {
            return Ok(false);
        }
        self.world = after;
        self.done = self.done.wrapping_add(1);
        self.holds(alloc, expected.as_slice())
    }

    // A list that is refused at the index, and leaves everything.
    fn refuse(&mut self, alloc: Global, list: Vec<Effect>, index: usize) -> Result<bool, Fail> {
        let before = turns(&self.stacks, alloc)?;
        if refusal(&mut self.stacks, alloc, list)? != Some(index) {
            return Ok(false);
        }
        self.holds(alloc, before.as_slice())
    }

    fn one(&mut self, alloc: Global, dice: &mut Dice) -> Result<bool, Fail> {
        let mut after = self.world.begin(alloc)?;
        let mut list = Vec::new(alloc);
        match draw_list(alloc, &mut list, &mut after, dice)? {
            Some(index) => self.refuse(alloc, list, index),
            None => self.take(alloc, list, after),
        }
    }
}

// How many of 40 lists both took, or None where they differed.
fn taken(alloc: Global, seed: u32) -> Result<Option<u64>, Fail> {
    let mut run = Run {
        stacks: empty(alloc)?,
        world: World::new(alloc),
        done: 0,
    };
    let mut dice = Dice::new(seed.wrapping_mul(7919));
    for _ in 0..40 {
        if !run.one(alloc, &mut dice)? {
            return Ok(None);
        }
    }
    Ok(Some(run.done))
}

// How many of 2,000 lists both took, or None where they differed.
fn all_taken(alloc: Global) -> Result<Option<u64>, Fail> {
    let mut sum = 0u64;
    for seed in 0u32..50 {
        match taken(alloc, seed)? {
            Some(done) => {
                sum = sum.wrapping_add(done);
            }
            None => return Ok(None),
        }
    }
    Ok(Some(sum))
}

fn are_alike(alloc: Global) -> Result<bool, Fail> {
    match all_taken(alloc)? {
        Some(sum) => Ok(sum >= 400 && sum <= 1600),
        None => Ok(false),
    }
}

#[test]
fn random_lists(rt: HostRuntime) -> Result<(), Fail> {
    assert!(rt; are_alike(rt.alloc())?);
    Ok(())
}
