mod calls;
mod fakes;
mod outside;
mod requests;
