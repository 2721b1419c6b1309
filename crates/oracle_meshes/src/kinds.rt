// The kinds that are replayed.
ghost use Rattle.oracle_meshes.specs.Kinds as Spec;

use replay_cases::case;
use replay_cases::run::Replay;
use replay_maps::{maps, rows, shown};
use replay_meshes::columns;

pub struct Meshes;

impl Replay for Meshes {
    ghost agrees = { Spec.agrees };

    #[tactic(auto, unfolding(crate::specs::Kinds::agrees))]
    fn agrees(kind: u64, b: &[u8; 16384]) -> bool {
        let w = case::words(b);
        let f = case::numbers(&w);
        let u = case::places(&w);
        let a = columns::agree(kind, &f, &u, &w);
        let c = maps::agree(kind, &f, &w);
        let d = rows::agree(kind, &f, &w);
        let e = shown::agree(kind, &f, &w);
        let g = replay_files::agree(kind, b, &w);
        let h = replay_writer::agree(kind, b, &f, &u, &w);
        let s = replay_shapes::agree(kind, b, &f, &u, &w);
        a | c | d | e | g | h | s
    }
}
