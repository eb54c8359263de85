//! Laws of the definitions.

ghost use Rattle.std.specs.Prelude.{◌≡◌, ◌↔◌, ℕ, All, List};
ghost use Rattle.faults.specs.declared.fault.Cause.{Cause};
ghost use Rattle.pep_marker.specs.Environment.{EnvironmentParts};
ghost use Rattle.demands.specs.Demand.{Demand};
ghost use Rattle.demands.specs.Table.{IsTable, TableParts};
ghost use Rattle.inputs.specs.declared.input.Input.{Input};
ghost use Rattle.inputs.specs.Gathered.{Gathered, IsAccepted};
ghost use Rattle.shards.specs.Shards.{
  AreListsOfShard,
  AreShards,
  HasNoShards,
  HaveShard,
  shard_of,
  shard_of_table,
};

/// The lines of a list have one shard each.
pub fn one_split()
    ensures { (count : ℕ) (bytes shards others : List ℕ) → AreShards count bytes shards
        → AreShards count bytes others → shards ≡ others }
{}

/// A list is refused for one cause at most, and then for any count its lines have no shards.
pub fn one_refusal()
    ensures one { (bytes : List ℕ) (c d : Cause) → HasNoShards bytes c → HasNoShards bytes d
        → c ≡ d }
    ensures not_split { (count : ℕ) (bytes shards : List ℕ) (c : Cause) → HasNoShards bytes c
        → ¬ AreShards count bytes shards }
{}

/// Lists that are made of the lines with one shard, by what [`shards_of`](crate::shards_of) tells of lists, are
/// this shard of them.
pub fn told_shard()
    ensures { (e : EnvironmentParts) (count shard : ℕ) (all part : List Input)
        → AreListsOfShard count shard all part → HaveShard e count shard all part }
{}

/// One shard of accepted lists and project files demands of the names in the shard what all of them demand, and
/// nothing of other names.
pub fn shard_demands()
    ensures { (e : EnvironmentParts) (count shard : ℕ) (all part : List Input)
        → All (IsAccepted e) all → All (IsAccepted e) part → HaveShard e count shard all part
        → (name : List ℕ) (d : Demand) → Gathered e part name d
        ↔ ((shard_of count name ≡ shard) × Gathered e all name d) }
{}

/// .. and its table has those entries of the table of all whose names are in the shard, and no other.
pub fn shard_table()
    ensures { (e : EnvironmentParts) (count shard : ℕ) (all part : List Input) (s t : TableParts)
        → All (IsAccepted e) all → All (IsAccepted e) part → HaveShard e count shard all part
        → IsTable (Gathered e all) s → IsTable (Gathered e part) t
        → t ≡ shard_of_table count shard s }
{}
