// A view of one map.
use rt_values::{IntList, Map, NoMemory, ObjectNo, Objects, StampedValue, Value, View};
use std::alloc::Global;
use std::test::Fail;

/// A map, and the objects that were read from it.
#[derive(Drop)]
pub struct MapView {
    pub map: Map,
    pub asked: Objects,
}

#[tactic(auto, using(lang_eval::proofs::Grows::grew_none))]
impl View for MapView {
    ghost use Rattle.std.specs.Prelude.{◌≡◌};
    ghost use Rattle.rt_values.specs.Views.{Extends};
    ghost use Rattle.rt_values.proofs.Views.{extends_itself, extends_on};

    ghost shows = { λ s m. s.map ≡ m };

    ghost asked = { λ s. s.asked };

    ghost keeps = { λ s t. Extends s.asked t.asked };

    ghost reads_free = { λ s. ⊥ };

    ghost keeps_itself = { λ s. extends_itself _ };

    ghost keeps_on = { λ r s t h k. extends_on h k };

    ghost asked_grows = { λ s t k. k };

    ghost free_kept = { λ s t k f. f };

    fn read(&mut self, alloc: Global, x: ObjectNo) -> Result<Value, NoMemory> {
        self.asked.push(x)?;
        match self.map.entries().get(x as usize) {
            Some(entry) => entry.value.copy(alloc),
            None => Ok(Value::Int(0)),
        }
    }
}

/// A view of the map in which object 0 is a list of `items`, and the objects after it are `numbers`.
pub fn view_of(alloc: Global, items: &[i64], numbers: &[i64]) -> Result<MapView, Fail> {
    let mut map = Map::new(alloc);
    let mut list = IntList::new(alloc)?;
    list.extend(items)?;
    map.push(StampedValue {
        value: Value::Ints(list),
        stamp: 0,
    })?;
    for number in numbers {
        map.push(StampedValue {
            value: Value::Int(*number),
            stamp: 0,
        })?;
    }
    Ok(MapView {
        map,
        asked: Objects::new(alloc),
    })
}
