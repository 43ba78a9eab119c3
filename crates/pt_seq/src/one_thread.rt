use crate::fire::{fire_within, go_on};
use pt_directors::Director;
use pt_firing::{Answer, Inputs};
use pt_node::Node;
use pt_past::{Labels, MeetingRecord};
use pt_several::{Buffers, FiresTrees};
use pt_time::Tag;
use pt_turns::{Rest, Within};
use pt_value::Text;
use std::alloc::Global;

/// Fires trees on one thread, for those who know what fires them as `FiresTrees` alone.
pub struct OneThread;

impl FiresTrees for OneThread {
    #[inline(always)]
    fn fire_within(
        alloc: Global,
        node: &mut Node,
        tag: Tag,
        inputs: &Inputs<'_>,
        left: &mut u64,
    ) -> Answer {
        fire_within(alloc, node, tag, inputs, left)
    }

    #[inline(always)]
    fn go_on(
        alloc: Global,
        director: &mut Director,
        children: &mut Vec<Node>,
        path: &Text,
        labels: &Labels,
        made: u64,
        meetings: &mut MeetingRecord,
        first: Rest,
        left: &mut u64,
        buffers: &mut Buffers,
    ) -> Within {
        go_on(
            alloc, director, children, path, labels, made, meetings, first, left, buffers,
        )
    }
}
