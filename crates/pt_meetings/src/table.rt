ghost use Rattle.std.specs.Prelude.{◌≡◌, ◌<◌, IfOk, OnOk, Some, All, length, slice_get};
ghost use Rattle.pt_node.specs.Shown.{shown_node};
ghost use Rattle.pt_node.specs.View.{outline_of};
ghost use Rattle.pt_meeting_lines.specs.Inside.{IsInsideOf};
ghost use Rattle.pt_net.specs.Inside.{children_of};
ghost use Rattle.pt_meetings.specs.Sites.{CanBeTold, AreWrittenFor, own_site, sites_in};
ghost use Rattle.pt_meetings.specs.Standing.{StandsFor};
ghost use Rattle.pt_meetings.specs.Tables.{IsPrepared};

use pt_meeting_lines::Inside;
use pt_meeting_text::write_meetings;
use pt_net::{Net, NetEntity};
use pt_node::Node;
use pt_past::MeetingRecord;
use pt_wiring::Insides;
use pt_within::{Within, within_all, within_at};
use std::alloc::{AllocError, Global};

/// A net with the children and the channels of each of its entities.
#[derive(Drop)]
pub(crate) struct Table<'a> {
    net: &'a Net,
    insides: Insides,
    channels: Vec<Within>,
}

impl<'a> Table<'a> {
    pub(crate) fn of(alloc: Global, net: &'a Net) -> Result<Table<'a>, AllocError>
        ensures net { IfOk result (λ table. table.net.now ≡ net.now) }
        ensures prepared { IfOk result IsPrepared }
    {
        let insides = Insides::of(alloc, net)?;
        let channels = within_all(alloc, net.entities.len(), &net.channels)?;
        Ok(Table {
            net,
            insides,
            channels,
        })
    }

    /// The entity of that number.
    #[tactic(auto, using(std::proofs::lemmas::Option::slice_get_within, std::proofs::lemmas::Option::slice_get_read))]
    fn entity_at(&self, k: usize) -> &NetEntity
        requires { k < length self.now.net.now.entities.items }
        ensures { slice_get self.now.net.now.entities.items k ≡ Some result.now }
    {
        &self.net.entities[k]
    }

    /// The numbers of the children of an entity.
    fn children_of(&self, k: usize) -> &[usize]
        requires prepared { IsPrepared self.now }
        requires there { k < length self.now.net.now.entities.items }
        ensures { result.now ≡ children_of self.now.net.now.entities.items k }
    {
        self.insides.children[k].as_slice()
    }

    /// The inside of the composite of that number.
    fn inside(&self, k: usize) -> Inside<'_>
        requires prepared { IsPrepared self.now }
        requires there { k < length self.now.net.now.entities.items }
        ensures net { result.net.now ≡ self.now.net.now }
        ensures number { result.number ≡ k }
        ensures inside { IsInsideOf result }
    {
        let composite = self.entity_at(k);
        let children = self.children_of(k);
        let lists = self.channels.as_slice();
        let channels = within_at(lists, k);
        Inside {
            net: self.net,
            number: k,
            composite,
            children,
            channels,
        }
    }

    /// Writes the list of a node itself, if it records meetings.
    fn write_own(
        &self,
        alloc: Global,
        k: usize,
        record: &MeetingRecord,
        out: &mut Vec<u8>,
    ) -> Result<(), AllocError>
        requires prepared { IsPrepared self.now }
        requires there { k < length self.now.net.now.entities.items }
        requires told { All (CanBeTold self.now.net.now) (own_site k record.now) }
        ensures { OnOk result (AreWrittenFor self.now.net.now (own_site k record.now) out.old.items out.new.items) }
    {
        let Some(made) = record.as_slice() else {
            return Ok(());
        };
        let inside = self.inside(k);
        write_meetings(alloc, &inside, made, out)?;
        Ok(())
    }

    /// Writes the lists of the node of entity `k` and of all within it.
    pub(crate) fn write(
        &self,
        alloc: Global,
        k: usize,
        node: &Node,
        out: &mut Vec<u8>,
    ) -> Result<(), AllocError>
        requires prepared { IsPrepared self.now }
        requires stands { StandsFor self.now.net.now.entities.items k (outline_of (shown_node node.now)) }
        requires told { All (CanBeTold self.now.net.now) (sites_in self.now.net.now.entities.items k (shown_node node.now)) }
        ensures { OnOk result (AreWrittenFor self.now.net.now (sites_in self.now.net.now.entities.items k (shown_node node.now)) out.old.items out.new.items) }
    {
        self.write_own(alloc, k, &node.meetings, out)?;
        let numbers = self.children_of(k);
        for place in 0..node.children.len() {
            let child = &node.children[place];
            self.write(alloc, numbers[place], child, out)?;
        }
        Ok(())
    }
}
