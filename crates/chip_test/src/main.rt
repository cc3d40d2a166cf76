// Runs the chip's operations on document 01's cases and prints a line for each.
#![tactic(auto)]

mod addresses;
mod counting;
mod given;
mod outside;
mod queueing;
mod registers;
mod resets;
mod sending;
mod steps;
mod waiting;

fn main() {
    every_register();
    every_trigger();
    every_wait();
    every_count();
    resets::software_reset();
    resets::phase_after_reset();
    resets::hardware_reset();
    resets::wait_after_reset();
    resets::speeds();
    sending::lengths();
    sending::as_single_sends();
    sending::resource_and_trace();
    sending::nothing_held();
    sending::by_a_lent_table();
    outside::every_bound();
    outside::largest();
    outside::last_inside();
}

fn every_register() {
    registers::every_address();
    registers::large_addresses();
    registers::every_line();
    registers::every_level();
    registers::widths();
    registers::enabled_set();
    registers::csr();
}

fn every_trigger() {
    queueing::listing_b();
    queueing::order_of_refusals();
    queueing::last_word_frees();
    queueing::shadows_busy();
    queueing::both_reasons();
    queueing::wait_by_default();
    queueing::write_wait();
    queueing::read_wait();
    queueing::lines_and_sources();
    queueing::fixed_at_trigger();
    queueing::kept_from_reads();
}

fn every_wait() {
    waiting::trace();
    waiting::in_between();
    waiting::resource();
    waiting::resource_by_buffers();
    waiting::nothing_left();
}

fn every_count() {
    counting::mux_halves();
    counting::software_events();
    counting::slow_clock();
    counting::phase_unseen();
    counting::node_wrap();
    counting::every_kind_wraps();
    counting::timestamp_wrap();
    counting::forty_bits();
    counting::wait_wrap();
    counting::overrun_wrap();
}
