// A vocabulary and tables to load files into.
use crate::answers::answer;
use files::fault::Fault;
use files::pair::Files;
use loading::shape::{Shape, load};
use loading::vocabulary::Vocabulary;
use std::alloc::{AllocError, Global};
use systems::limits::{MAX_MOVES, MAX_STATES};
use systems::transition::Transition;
use tables::table::Table;

#[derive(Clone, Drop, PartialEq)]
pub struct Bench {
    pub vocabulary: Vocabulary,
    pub records: Vec<Transition>,
    pub sets: Vec<u64>,
}

// What a load answered, in words too, and whether everything is as it was before.
#[derive(Drop)]
pub struct Loaded {
    pub result: Result<Shape, Fault>,
    pub said: String,
    pub kept: bool,
}

impl Bench {
    // No names, and tables of these lengths with something in every place.
    pub fn new(heap: Global, records: usize, sets: usize) -> Result<Bench, AllocError> {
        let fillers = (0..u16::MAX).take(records).map(|target| Transition {
            source: 900,
            events: 7,
            target,
        });
        Ok(Bench {
            vocabulary: Vocabulary::new(),
            records: fillers.collect(heap)?,
            sets: (0..u64::MAX).take(sets).collect(heap)?,
        })
    }

    // Loads the files.
    pub fn load(&mut self, files: Files<'_>) -> Result<Shape, Fault> {
        load(
            files,
            &mut self.vocabulary,
            &mut self.records,
            &mut self.sets,
        )
    }

    // The table of this shape over all the records and sets.
    pub fn table(&self, shape: Shape) -> Table<'_> {
        Table::new(shape, &self.records, &self.sets)
    }

    // Loads the files, and tells what came of it.
    pub fn run(&mut self, heap: Global, files: Files<'_>) -> Result<Loaded, AllocError> {
        let before = self.clone()?;
        let result = self.load(files);
        let said = answer(heap, files, &result)?;
        Ok(Loaded {
            result,
            said,
            kept: *self == before,
        })
    }
}

// What a load into new tables of the greatest size says, and whether a refusal changed anything.
pub fn outcome(heap: Global, files: Files<'_>) -> Result<String, AllocError> {
    let mut bench = Bench::new(heap, MAX_MOVES, MAX_STATES)?;
    let done = bench.run(heap, files)?;
    let mut said = done.said;
    if done.result.is_err() && !done.kept {
        said.push_str(" and changed something")?;
    }
    Ok(said)
}
