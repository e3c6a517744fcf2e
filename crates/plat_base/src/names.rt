//! The names of labels.
ghost use Rattle.std.specs.Prelude.{◌≡◌, ◌≤◌, length, IsTrue};
ghost use Rattle.plat_base.specs.Labels.{is_label_name};

use std::marker::Model;

/// A label's name: a letter a to z, and then letters a to z, digits and underscores, 32 bytes at most. Contracts see the
/// list of its bytes.
#[derive(Debug, Drop)]
pub struct Name {
    kept: [u8; 32],
    len: usize,
}

impl Model for Name {
    ghost use Rattle.std.specs.Prelude.{List, ℕ, ◌≤◌, take, IsTrue};
    ghost use Rattle.plat_base.specs.Labels.{is_label_name};

    ghost Value = { List ℕ };

    ghost view = { λ it. take it.len it.kept };

    ghost invariant = { λ it. (it.len ≤ 32) × IsTrue (is_label_name (take it.len it.kept)) };
}

impl Name {
    /// The name with these bytes.
    #[tactic(auto, using(crate::proofs::NameLemmas::label_length))]
    pub fn new(bytes: &[u8]) -> Name
        requires { IsTrue (is_label_name bytes.now) }
        ensures { result ≡ bytes.now }
    {
        let len = bytes.len();
        let mut kept = [0; 32];
        kept[..len].copy_from_slice(bytes);
        Name { kept, len }
    }

    /// The bytes of the name.
    pub fn bytes(&self) -> &[u8]
        ensures value { result.now ≡ self.now }
        ensures spelled { IsTrue (is_label_name self.now) }
    {
        &self.kept[..self.len]
    }
}
