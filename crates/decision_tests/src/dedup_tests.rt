// Tests of the windows in which the copies of a frame are gathered.
mod event;
mod window_tests;
